// Prints the book on standard input, a line a second, then the sum line or the refusal (01, "Blocks and text").
#![tactic(auto)]

use report::Form;
use sheet::FairSheet;

fn main(rt: HostRuntime) {
    stdio::print_book(&rt, &mut rt.stdin(), FairSheet::default(), Form::Line);
}
