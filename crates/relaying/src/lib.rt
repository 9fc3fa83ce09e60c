// A page laid out anew, from the beginning of a draft to its keeping.
#![tactic(auto)]

ghost use Rattle.relaying.specs.Tokens.{IsRested};

use faults::fault::Fault;
use holder::holder::Holder;
use holder::token::{Begun, Rested, Ticket, Token};
use plans::plan::Plan;
use plans::view::View;
use store::traits::Card;

// Lays out the picture that is shown anew, through a view by a plan, and answers the sectors that were carried.
// A draft that the holder refuses on the way is given up.
pub fn lay_out<C: Card>(holder: &mut Holder<C>, view: View, plan: Plan) -> Result<u64, Fault> {
    let (begun, sectors) = holder.begin(view, plan)?;
    let carried = carry_all(holder, begun, sectors)?;
    let draft = Token::Rested(given_up(holder.rest(carried), holder)?);
    let switched = given_up(holder.switch(into_rested(draft)), holder)?;
    holder.keep(switched)?;
    Ok(sectors)
}

// The draft, which has rested: asked of a token, so that a step left out is refused by a proof and not by a type alone.
fn into_rested(draft: Token) -> Rested
    requires { IsRested draft }
{
    match draft {
        Token::Rested(draft) => draft,
        _ => unreachable(),
    }
}

// Carries a draft, sector by sector.
fn carry_all<C: Card>(holder: &mut Holder<C>, begun: Begun, sectors: u64) -> Result<Begun, Fault> {
    let mut draft = begun;
    for _ in 0..sectors {
        let (carried, _) = given_up(holder.carry(draft), holder)?;
        draft = carried;
    }
    Ok(draft)
}

// The result of a step, the draft given up where the holder refuses it.
fn given_up<C: Card, T, S>(
    res: Result<T, (Ticket<S>, Fault)>,
    holder: &mut Holder<C>,
) -> Result<T, Fault>
where
    Ticket<S>: Into<Token>,
{
    res.map_err(|(draft, fault)| {
        let _ = holder.scrap(draft.into());
        fault
    })
}
