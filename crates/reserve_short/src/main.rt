// Prints which kind was short in the book on standard input: each second in which a kind stood outside its band, how often each did, then the
// sum line or the refusal.
#![tactic(auto)]

use report::Form;
use sheet::FairSheet;

fn main(rt: HostRuntime) {
    stdio::print_book(&rt, &mut rt.stdin(), FairSheet::default(), Form::Short);
}
