// No function: the values that document 01 marks with *, gathered as one statement and proved from the definitions.
#![tactic(auto)]
