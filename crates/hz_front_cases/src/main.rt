// Reads cases, one on a line, and prints the answer to each: the tokens of a source, or its functions, or why it is
// refused. A line with a comment, and an empty one, is printed as it is.
//
//     tokens SOURCE          the tokens of a source, up to its end or to the first that is bad
//     from PLACE SOURCE      the token behind a place; with `from PLACE -hole` where a `}` goes on with a template
//     read SOURCE            the functions of a source; with `read -strict` it is read as strict code
//     deep SHAPE N           the same of a long source, read as strict code
//
// In a source `\n` is a newline, `\\` a backslash, and `\xNN` the byte NN. The texts of tokens are printed so too.
#![tactic(auto)]

mod case;
mod deep;
mod functions;
mod source;
mod tokens;

use case::answer;
use std::io;

fn main(rt: HostRuntime) -> io::Result<()> {
    for line in rt.lines(rt.alloc()) {
        let text = answer(rt.alloc(), line?.as_str())?;
        println!(rt; "{text}")?;
    }
    Ok(())
}
