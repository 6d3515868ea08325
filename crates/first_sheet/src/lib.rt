// No function: under the sheet with document 01's figures the bands are those of document 01's own definitions.
#![tactic(auto)]
