//! The strategies of the program.

ghost use Rattle.std.specs.Prelude.{◌≡◌, IfOk};
ghost use Rattle.swap_run.specs.Program.{program_names, program_rule};
ghost use Rattle.swap_main.specs.KnownStrategies.{by_rule, is_known};

use ledger_core::{Book, Call};
use std::alloc::Global;
use swap_base::{ArcId, ByteText, Listed, NoMemory, PartyId};
use swap_digraph::Deal;
use swap_run::{Strategies, greedy_rule, replayer_rule, silent_rule, spoiler_rule};

/// The names of the program's strategies.
fn program_names(alloc: Global) -> Result<Listed<ByteText>, NoMemory>
    ensures { IfOk result (λ names. names ≡ program_names) }
{
    let mut names = Listed::empty(alloc);
    names.push(ByteText::from_slice(alloc, b"silent")?)?;
    names.push(ByteText::from_slice(alloc, b"greedy")?)?;
    names.push(ByteText::from_slice(alloc, b"replayer")?)?;
    names.push(ByteText::from_slice(alloc, b"spoiler")?)?;
    Ok(names)
}

/// Who answers for the strategies `silent`, `greedy`, `replayer` and `spoiler`, each by its rule.
#[derive(Drop)]
pub struct Program {
    pub alloc: Global,
}

impl Strategies for Program {
    ghost holds = { λ program. is_known };

    ghost gives = { λ program. by_rule program_rule };

    fn names(&self) -> Result<Listed<ByteText>, NoMemory> {
        program_names(self.alloc)
    }

    fn answer(
        &self,
        name: &ByteText,
        deal: &Deal,
        me: PartyId,
        turn: u32,
        known: &Book,
    ) -> Result<Option<(ArcId, Call)>, NoMemory> {
        let name = name.as_slice();
        if b"silent".as_slice() == name {
            silent_rule(deal, me, turn, known)
        } else if b"greedy".as_slice() == name {
            greedy_rule(deal, me, turn, known)
        } else if b"replayer".as_slice() == name {
            replayer_rule(self.alloc, deal, me, turn, known)
        } else if b"spoiler".as_slice() == name {
            spoiler_rule(self.alloc, deal, me, turn, known)
        } else {
            Ok(None)
        }
    }
}
