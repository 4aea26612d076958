// The words of the command line.
ghost use Rattle.std.specs.Prelude.{◌≡◌, drop, map, string_bytes, IfOk, IfErr};
ghost use Rattle.std.specs.Vec.Iter.{into_iter_items};
ghost use Rattle.hm_edge.specs.Exits.{ArgumentsAre, arguments, MayNotBegin};

use crate::status::Status;
use hm_base::NoMemory;
use std::alloc::Global;
use std::env::Args;
use std::io;

/// All arguments but the first, which is the program's name.
fn without_name(alloc: Global, args: Args) -> Result<Vec<String>, NoMemory>
    ensures { IfOk result (λ words. words.items ≡ drop 1 (into_iter_items args)) }
{
    let mut words = Vec::new(alloc);
    for word in args {
        words.push(word)?;
    }
    if !words.is_empty() {
        let _name = words.remove(0);
    }
    Ok(words)
}

/// The words after the program's name; or how a call ends that has none: memory ran out, or an argument is not UTF-8.
pub fn words_after_name(alloc: Global, args: io::Result<Args>) -> Result<Vec<String>, Status>
    ensures words { IfOk result (λ words. ArgumentsAre (λ given. drop 1 given ≡ map string_bytes words.items)
        (arguments (λ x. map string_bytes (into_iter_items x)) args)) }
    ensures none { IfErr result (MayNotBegin (arguments (λ x. map string_bytes (into_iter_items x)) args)) }
{
    match args {
        Ok(args) => match without_name(alloc, args) {
            Ok(words) => Ok(words),
            Err(NoMemory) => Err(Status::NoMemory),
        },
        Err(error) => match error.kind() {
            io::ErrorKind::OutOfMemory => Err(Status::NoMemory),
            _ => Err(Status::Usage),
        },
    }
}
