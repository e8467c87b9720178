//! The steps by which a store comes to hold what files hold.

ghost use Rattle.std.specs.Prelude.{◌≡◌, ◌⊎◌, ◌<◌, [], None, true, false, map, length};
ghost use Rattle.std.specs.Prelude.{option_map, unwrap_or, IfOk, IfErr, MatchOption, find};
ghost use Rattle.std.specs.Option.{option_copied};
ghost use Rattle.std.specs.Str.{bytes_eq};
ghost use Rattle.ts_sync.specs.Plan.{aim, kept_in, plan};
ghost use Rattle.ts_exchange.specs.Held.{HasOther, HoldsAll, HoldsMore, IsNeither, nothing};
ghost use Rattle.ts_exchange.specs.Steps.{IsUnmade, brought_by, command_for, line_of, word_of};

use crate::value::Value;
use std::alloc::{AllocError, Global};
use ts_command::Command;
use ts_line::Line;
use ts_octets::Octets;
use ts_question::{AnchorRow, CrlRow};
use ts_sync::{Holding, PlanStep, StepKind, plan_named};

/// What files hold.
#[derive(Drop)]
pub struct WantedFiles {
    /// The trust anchors; none to leave those of a store as they are.
    pub anchors: Vec<Value>,
    /// The CRLs; none to leave those of a store as they are.
    pub crls: Vec<Value>,
}

/// Why there is no command.
#[derive(Clone, Copy, Debug, PartialEq, Eq)]
pub enum StepFault {
    /// Memory was refused.
    Memory,
    /// The octets are more than a command holds.
    TooLong,
}

impl From<AllocError> for StepFault {
    ghost use Rattle.ts_exchange.specs.declared.steps.StepFault.TheVariants.{Memory};

    ghost from_gives = { λ _ e. e ≡ Memory };

    fn from(_e: AllocError) -> StepFault {
        StepFault::Memory
    }
}

/// Holds what a row says that a store holds. Whether it is a row of a store.
fn hold(held: &mut Holding, octets: &[u8]) -> Result<bool, AllocError>
    ensures { IfOk result (λ holds.
        ((holds ≡ true) × HoldsMore octets.now (kept_in held.old) (kept_in held.new))
        ⊎ ((holds ≡ false) × IsNeither octets.now)) }
{
    if let Some(row) = AnchorRow::read(octets)? {
        held.anchors.push(row.id)?;
        return Ok(true);
    }
    let Some(row) = CrlRow::read(octets)? else {
        return Ok(false);
    };
    held.crls.push(row.id)?;
    Ok(true)
}

/// What a store holds, by its rows. `None` exactly where some octets are no row of a store.
///
/// # Errors
///
/// Out of memory.
pub fn held_in(alloc: Global, rows: &[Vec<u8>]) -> Result<Option<Holding>, AllocError>
    ensures { IfOk result (λ held. MatchOption held (HasOther (map (λ row. row.items) rows.now))
        (λ held. HoldsAll (map (λ row. row.items) rows.now) nothing (kept_in held))) }
{
    let mut held = Holding {
        anchors: Vec::new(alloc),
        crls: Vec::new(alloc),
    };
    for octets in rows {
        if !hold(&mut held, octets)? {
            return Ok(None);
        }
    }
    Ok(Some(held))
}

/// The ids of values.
fn ids_of(alloc: Global, values: &[Value]) -> Result<Vec<[u8; 32]>, AllocError>
    ensures { IfOk result (λ ids. ids.items ≡ map (λ v. v.id) values.now) }
{
    let mut ids = Vec::new(alloc);
    for value in values {
        ids.push(value.id)?;
    }
    Ok(ids)
}

/// The steps after which a store that holds this holds what files hold.
///
/// # Errors
///
/// Out of memory.
pub fn steps_from(
    alloc: Global,
    held: &Holding,
    wanted: &WantedFiles,
) -> Result<Vec<PlanStep>, AllocError>
    ensures { IfOk result (λ steps. steps.items ≡ plan (kept_in held.now)
        (aim (kept_in held.now) (map (λ v. v.id) wanted.now.anchors.items)
        (map (λ v. v.id) wanted.now.crls.items))) }
{
    let anchors = ids_of(alloc, &wanted.anchors)?;
    let crls = ids_of(alloc, &wanted.crls)?;
    plan_named(alloc, held, &anchors, &crls)
}

/// The first value of this id.
fn value_in<'a>(values: &'a [Value], id: &[u8; 32]) -> Option<&'a Value>
    ensures { option_copied result ≡ find (λ v. bytes_eq v.id id.now) values.now }
{
    values.iter().find(|value| value.id == *id)
}

/// The value that a step brings, if it brings one: the first of its id.
pub fn value_of<'a>(wanted: &'a WantedFiles, step: &PlanStep) -> Option<&'a Value>
    ensures { option_copied result ≡ brought_by wanted.now step.now }
{
    match step.kind {
        StepKind::Add => value_in(&wanted.anchors, &step.id),
        StepKind::Load => value_in(&wanted.crls, &step.id),
        StepKind::Drop | StepKind::Withdraw => None,
    }
}

/// The octets that a step brings; none where it brings nothing.
fn octets_of(alloc: Global, value: Option<&Value>) -> Result<Octets, AllocError>
    ensures { IfOk result
        (λ octets. octets ≡ unwrap_or (option_map (λ v. v.now.octets.items) value.entry) []) }
{
    match value {
        Some(value) => Octets::copy_of(alloc, &value.octets),
        None => Octets::copy_of(alloc, &[]),
    }
}

/// The command of this id that does a step, which brings this value.
///
/// # Errors
///
/// `TooLong` exactly where the value is longer than a command holds; `Memory`.
pub fn command_of(
    alloc: Global,
    id: [u8; 16],
    step: &PlanStep,
    value: Option<&Value>,
) -> Result<Command, StepFault>
    ensures made { IfOk result (λ command. command ≡ command_for step.now.kind id step.now.id
        (unwrap_or (option_map (λ v. v.now.octets.items) value.entry) [])) }
    ensures fault { IfErr result (IsUnmade step.now.kind
        (unwrap_or (option_map (λ v. v.now.octets.items) value.entry) [])) }
{
    let made = match step.kind {
        StepKind::Add => Command::add_anchor(id, octets_of(alloc, value)?),
        StepKind::Load => Command::load_crl(id, octets_of(alloc, value)?),
        StepKind::Drop => Ok(Command::DropCrl { id, crl: step.id }),
        StepKind::Withdraw => Ok(Command::WithdrawAnchor {
            id,
            anchor: step.id,
        }),
    };
    match made {
        Ok(command) => Ok(command),
        Err(_) => Err(StepFault::TooLong),
    }
}

/// The word for what a step does, as `trustd command` has it.
fn word_of(kind: StepKind) -> &'static str
    ensures { result.now ≡ word_of kind }
{
    match kind {
        StepKind::Add => "add",
        StepKind::Load => "load",
        StepKind::Drop => "drop",
        StepKind::Withdraw => "withdraw",
    }
}

/// The line of a step: what it does, the id that it is about and, where it brings one, its file.
///
/// # Errors
///
/// Out of memory.
pub fn step_line(alloc: Global, step: &PlanStep, file: Option<&str>) -> Result<Line, AllocError>
    ensures { IfOk result
        (λ line. line ≡ line_of step.now.kind step.now.id (option_map (λ f. f.now) file.entry)) }
{
    let mut line = Line::of(alloc, word_of(step.kind).as_bytes())?;
    line.text(b" ")?;
    line.hex(&step.id)?;
    if let Some(file) = file {
        line.word(file.as_bytes())?;
    }
    Ok(line)
}
