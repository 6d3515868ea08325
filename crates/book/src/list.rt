// A whole list of book seconds in one lent slice.
ghost use Rattle.std.specs.Prelude.{◌≡◌};
ghost use Rattle.book.specs.State.{Ready};
ghost use Rattle.book.specs.List.{own_bytes, later_bytes, listed_in, ListRan};

use crate::Book;

// Past an owner byte: the bytes of its second, as many as the length byte says or as there are, and those of the later ones.
fn split_second(list: &[u8]) -> (&[u8], &[u8])
    ensures { (result.0.now ≡ own_bytes list.now) × (result.1.now ≡ later_bytes list.now) }
{
    let [size, rest @ ..] = list else {
        return (list, list);
    };
    rest.split_at(rest.len().min(usize::from(*size)))
}

// Runs a list of book seconds to its end, refused ones included. In the slice each second has an owner byte, a byte that says how many bytes
// follow, 0 to 255, and those bytes: 108 of them in a second of the right length. The last one may be cut short.
pub fn run(book: &mut Book, list: &[u8])
    requires { Ready book.old }
    ensures { ListRan book.old (listed_in list.now) book.new }
{
    let mut rest = list;
    while let [owner, after @ ..] = rest {
        let (bytes, later) = split_second(after);
        // A refusal changes nothing, and the list goes on.
        let _ = book.second(*owner, bytes);
        rest = later;
    }
}
