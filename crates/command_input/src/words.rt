//! The words that a program is called with.

ghost use Rattle.std.specs.Prelude.{◌≡◌, IfErr, IfOk, IsErr, MatchOption, None, drop};
ghost use Rattle.std.specs.IoError.{error_kind};
ghost use Rattle.std.specs.Vec.Iter.{into_iter_items};

use std::alloc::Global;
use std::env::Args;
use std::io;
use std::io::ErrorKind;
use swap_base::NoMemory;

/// The words behind the first.
fn behind_first(alloc: Global, args: Args) -> Result<Vec<String>, NoMemory>
    ensures { IfOk result (λ words. words.items ≡ drop 1 (into_iter_items args)) }
{
    let mut rest = args;
    let _ = rest.next();
    let mut words = Vec::new(alloc);
    for word in rest {
        words.push(word)?;
    }
    Ok(words)
}

/// The words after the program's name; none where one of them is no text.
pub fn collect_words(alloc: Global, args: io::Result<Args>) -> Result<Option<Vec<String>>, NoMemory>
    ensures words { IfOk args (λ all. IfOk result (λ o. MatchOption o ⊥ (λ words. words.items ≡ drop 1 (into_iter_items all)))) }
    ensures none { IfErr args (λ e. IfOk result (λ o. o ≡ None)) }
    ensures memory { IfErr args (λ e. error_kind e ≡ ErrorKind.OutOfMemory → IsErr result) }
{
    match args {
        Ok(args) => Ok(Some(behind_first(alloc, args)?)),
        Err(e) if e.kind() == ErrorKind::OutOfMemory => Err(NoMemory),
        Err(_) => Ok(None),
    }
}
