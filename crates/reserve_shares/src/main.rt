// Prints, for those who recompute the shares of the book on standard input, what was shared in each second and plant and how each share was
// rounded, then the sum line or the refusal.
#![tactic(auto)]

use report::Form;
use sheet::FairSheet;

fn main(rt: HostRuntime) {
    stdio::print_book(&rt, &mut rt.stdin(), FairSheet::default(), Form::Shares);
}
