// The law over piles: a hold over a tray over any card is again a card, so it holds there too.
#![tactic(auto)]

ghost use Rattle.drafts.specs.Mem.{mem_of};
ghost use Rattle.law.specs.Run.{LawfulRun};
ghost use Rattle.holder.specs.Lines.{lines_of};
ghost use Rattle.piles.specs.Piles.{lent_mem, pile_mem};

use hold::Hold;
use holder::holder::Holder;
use holder::replay::{Line, replay};
use store::slices::Memory;
use store::traits::Card;
use tray::Tray;

// A run over a hold over a tray over any card.
pub fn replay_pile<C: Card>(pile: Hold<Tray<C>>, lines: &mut [Line]) -> Holder<Hold<Tray<C>>>
    ensures run { LawfulRun (pile_mem (mem_of C.Store) pile) (lines_of lines.old lines.new) (pile_mem (mem_of C.Store) result.store) }
{
    replay(pile, lines)
}

// The same over a card memory.
pub fn replay_memory<'a>(
    pile: Hold<Tray<Memory<'a>>>,
    lines: &mut [Line],
) -> Holder<Hold<Tray<Memory<'a>>>>
    ensures run { LawfulRun (pile_mem (λ m. lent_mem m.0.now) pile.entry) (lines_of lines.old lines.new) (pile_mem (λ m. lent_mem m.0.now) result.store) }
{
    replay_pile(pile, lines)
}
