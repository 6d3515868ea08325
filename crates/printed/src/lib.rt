// No function: what is printed of a whole book, from all its bytes (specs/Printed.antt), and that `pieces` prints it however the bytes are cut
// (specs/Claims.antt).
#![tactic(auto)]
