//! The facts that a list of facts is equivalent to (`SameForce`), each once.

ghost use Rattle.std.specs.Prelude.{◌≡◌, ◌≤◌, ◌^◌, ◌++◌, [], suc, length, Some, IfOk, OnOk};
ghost use Rattle.ts_synod.specs.Force.{round_used_by, used_round, greater_vote};
ghost use Rattle.ts_record.specs.Compacted.{position_of, last_fact_position, used_fact, compact};
ghost use Rattle.ts_record.specs.inside.Places.{places, with_fact, facts_of, facts_of_all};

use std::alloc::{AllocError, Global};
use ts_synod::{Ballot, Codec, Fact, Vote};

/// What facts say of a position. A ballot of 0 is no promise.
#[derive(Drop)]
struct Place<C> {
    promised: Ballot,
    taken: Option<Vote<C>>,
    learned: Option<C>,
}

/// The position that a fact is about; 0 for a round.
fn position<C: Codec>(fact: &Fact<C>) -> u32
    ensures { result ≡ position_of fact.now }
{
    match fact {
        Fact::Used { round: _ } => 0,
        Fact::Promised {
            position,
            ballot: _,
        } => *position,
        Fact::Took {
            position,
            ballot: _,
            command: _,
        } => *position,
        Fact::Chosen {
            position,
            command: _,
        } => *position,
    }
}

/// The round that a fact says is used; 0 for the other kinds of fact.
fn round<C: Codec>(fact: &Fact<C>) -> u32
    ensures { result ≡ round_used_by fact.now }
{
    match fact {
        Fact::Used { round } => *round,
        _ => 0,
    }
}

/// The last position, and the greatest round.
fn bounds<C: Codec>(facts: &[Fact<C>]) -> (u32, u32)
    ensures last { result.0 ≡ last_fact_position facts.now }
    ensures used { result.1 ≡ used_round facts.now }
{
    let (mut last, mut used) = (0, 0);
    for fact in facts {
        last = position(fact).max(last);
        used = used.max(round(fact));
    }
    (last, used)
}

/// A table of so many positions, of which no fact says anything.
fn empty_places<C: Codec>(alloc: Global, count: usize) -> Result<Vec<Place<C>>, AllocError>
    ensures { IfOk result (λ table. table.items ≡ places 0 count []) }
{
    let mut table = Vec::new(alloc);
    for _ in 0..count {
        table.push(Place {
            promised: 0,
            taken: None,
            learned: None,
        })?;
    }
    Ok(table)
}

/// Makes a vote the one that was taken, where its ballot is greater or none was taken before.
fn take_vote<C: Codec>(
    alloc: Global,
    taken: &mut Option<Vote<C>>,
    ballot: Ballot,
    command: &C,
) -> Result<(), AllocError>
    ensures { OnOk result (taken.new
        ≡ greater_vote taken.old (Some (record { ballot = ballot; command = command.now }))) }
{
    let is_less = match taken {
        Some(vote) => vote.ballot < ballot,
        None => true,
    };
    if is_less {
        let command = command.try_copy(alloc)?;
        *taken = Some(Vote { ballot, command });
    }
    Ok(())
}

/// A place with one more fact, which is about its position.
fn note<C: Codec>(alloc: Global, place: &mut Place<C>, fact: &Fact<C>) -> Result<(), AllocError>
    ensures { OnOk result (place.new ≡ with_fact place.old fact.now) }
{
    match fact {
        Fact::Used { round: _ } => {}
        Fact::Promised {
            position: _,
            ballot,
        } => place.promised = place.promised.max(*ballot),
        Fact::Took {
            position: _,
            ballot,
            command,
        } => take_vote(alloc, &mut place.taken, *ballot, command)?,
        Fact::Chosen {
            position: _,
            command,
        } => {
            if place.learned.is_none() {
                place.learned = Some(command.try_copy(alloc)?);
            }
        }
    }
    Ok(())
}

/// A table of the positions up to the last.
fn table_of<C: Codec>(
    alloc: Global,
    facts: &[Fact<C>],
    last: u32,
) -> Result<Vec<Place<C>>, AllocError>
    requires { last ≡ last_fact_position facts.now }
    ensures { IfOk result (λ table. table.items
        ≡ places 0 (suc (last_fact_position facts.now)) facts.now) }
{
    let mut table = empty_places(alloc, last as usize + 1)?;
    for fact in facts {
        let at = position(fact) as usize;
        note(alloc, &mut table[at], fact)?;
    }
    Ok(table)
}

/// Adds the facts of a position: its promise, the vote taken and the command learned, where it has
/// them.
fn push_place<C: Codec>(
    alloc: Global,
    out: &mut Vec<Fact<C>>,
    position: u32,
    place: &Place<C>,
) -> Result<(), AllocError>
    ensures { OnOk result (out.new.items ≡ out.old.items ++ facts_of position place.now) }
{
    if place.promised != 0 {
        out.push(Fact::Promised {
            position,
            ballot: place.promised,
        })?;
    }
    if let Some(vote) = &place.taken {
        out.push(Fact::Took {
            position,
            ballot: vote.ballot,
            command: vote.command.try_copy(alloc)?,
        })?;
    }
    if let Some(command) = &place.learned {
        out.push(Fact::Chosen {
            position,
            command: command.try_copy(alloc)?,
        })?;
    }
    Ok(())
}

/// The facts of a table.
fn facts_of<C: Codec>(
    alloc: Global,
    used: u32,
    table: &[Place<C>],
) -> Result<Vec<Fact<C>>, AllocError>
    requires { length table.now ≤ 2 ^ 32 }
    ensures { IfOk result (λ out. out.items ≡ used_fact used ++ facts_of_all 0 table.now) }
{
    let mut out = Vec::new(alloc);
    if used != 0 {
        out.push(Fact::Used { round: used })?;
    }
    for at in 0..table.len() {
        push_place(alloc, &mut out, at as u32, &table[at])?;
    }
    Ok(out)
}

/// Of these facts those that a rewrite copies: the greatest round, and for each position the
/// greatest promise, the vote of the greatest ballot and the command learned. The time is linear in
/// the facts and in the last position.
pub(crate) fn compact<C: Codec>(
    alloc: Global,
    facts: &[Fact<C>],
) -> Result<Vec<Fact<C>>, AllocError>
    ensures { IfOk result (λ out. out.items ≡ compact facts.now) }
{
    let (last, used) = bounds(facts);
    let table = table_of(alloc, facts, last)?;
    let out = facts_of(alloc, used, &table)?;
    Ok(out)
}
