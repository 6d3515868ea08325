// No function: what is printed of a book that is handed over once (02, W7; specs/Cut.antt), the same second by second and block by block
// (specs/Running.antt), and that both are one (specs/Claims.antt).
#![tactic(auto)]
