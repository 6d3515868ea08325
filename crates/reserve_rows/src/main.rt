// Prints the book on standard input with every figure of every row, then the sum line or the refusal.
#![tactic(auto)]

use report::Form;
use sheet::FairSheet;

fn main(rt: HostRuntime) {
    stdio::print_book(&rt, &mut rt.stdin(), FairSheet::default(), Form::Figures);
}
