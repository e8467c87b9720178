//! Plans.

ghost use Rattle.std.specs.Prelude.{◌≡◌, ◌++◌, List, ℕ, map, IfOk, OnOk};
ghost use Rattle.ts_sync.specs.Plan.{absent, aim, brings, chosen_ids, has, kept_in, plan, step};

use std::alloc::{AllocError, Global};

/// What a store holds, or is to hold.
#[derive(Debug, Drop)]
pub struct Holding {
    /// The SHA-256 of the certificate of each trust anchor.
    pub anchors: Vec<[u8; 32]>,
    /// The SHA-256 of each CRL and delta CRL.
    pub crls: Vec<[u8; 32]>,
}

/// What a step does.
#[derive(Clone, Copy, Debug, PartialEq, Eq)]
pub enum StepKind {
    /// Adds an anchor.
    Add,
    /// Loads a CRL.
    Load,
    /// Drops a CRL.
    Drop,
    /// Withdraws an anchor.
    Withdraw,
}

impl StepKind {
    /// Whether something comes into the store.
    pub fn brings(self) -> bool
        ensures { result ≡ brings self }
    {
        match self {
            StepKind::Add | StepKind::Load => true,
            StepKind::Drop | StepKind::Withdraw => false,
        }
    }
}

/// A step of a plan.
#[derive(Clone, Copy, Debug, PartialEq, Eq)]
pub struct PlanStep {
    pub kind: StepKind,
    /// The id of the anchor or of the CRL.
    pub id: [u8; 32],
}

/// Whether an id is among others.
fn has(ids: &[[u8; 32]], id: &[u8; 32]) -> bool
    ensures { result ≡ has ids.now id.now }
{
    ids.iter().any(|other| *id == *other)
}

/// The ids that are not among others, each once.
fn absent(alloc: Global, others: &[[u8; 32]], ids: &[[u8; 32]]) -> Result<Vec<[u8; 32]>, AllocError>
    ensures { IfOk result (λ kept. kept.items ≡ absent others.now ids.now) }
{
    let mut kept: Vec<[u8; 32]> = Vec::new(alloc);
    for id in ids {
        if !has(others, id) && !has(&kept, id) {
            kept.push(*id)?;
        }
    }
    Ok(kept)
}

/// Puts a step of a kind for each id behind others.
fn push_steps(steps: &mut Vec<PlanStep>, kind: StepKind, ids: &[[u8; 32]]) -> Result<(), AllocError>
    ensures { OnOk result (steps.new.items ≡ steps.old.items ++ map (step kind) ids.now) }
{
    for id in ids {
        steps.push(PlanStep { kind, id: *id })?;
    }
    Ok(())
}

/// What has to be done so that a store which holds this holds exactly what is wanted.
///
/// # Errors
///
/// Out of memory.
pub fn plan(alloc: Global, held: &Holding, wanted: &Holding) -> Result<Vec<PlanStep>, AllocError>
    ensures { IfOk result (λ steps. steps.items ≡ plan (kept_in held.now) (kept_in wanted.now)) }
{
    let mut steps = Vec::new(alloc);
    let added = absent(alloc, &held.anchors, &wanted.anchors)?;
    push_steps(&mut steps, StepKind::Add, &added)?;
    let loaded = absent(alloc, &held.crls, &wanted.crls)?;
    push_steps(&mut steps, StepKind::Load, &loaded)?;
    let dropped = absent(alloc, &wanted.crls, &held.crls)?;
    push_steps(&mut steps, StepKind::Drop, &dropped)?;
    let withdrawn = absent(alloc, &wanted.anchors, &held.anchors)?;
    push_steps(&mut steps, StepKind::Withdraw, &withdrawn)?;
    Ok(steps)
}

/// The ids that are named; where none are, those that are held.
fn chosen(alloc: Global, held: &[[u8; 32]], named: &[[u8; 32]]) -> Result<Vec<[u8; 32]>, AllocError>
    ensures { IfOk result (λ ids. ids.items ≡ chosen_ids held.now named.now) }
{
    if named.is_empty() {
        return Vec::from_slice(alloc, held);
    }
    Vec::from_slice(alloc, named)
}

/// What has to be done so that a store which holds this holds exactly the anchors and the CRLs that
/// are named. Where no anchors are named it keeps its anchors, and where no CRLs are its CRLs.
///
/// # Errors
///
/// Out of memory.
pub fn plan_named(
    alloc: Global,
    held: &Holding,
    anchors: &[[u8; 32]],
    crls: &[[u8; 32]],
) -> Result<Vec<PlanStep>, AllocError>
    ensures { IfOk result (λ steps. steps.items
        ≡ plan (kept_in held.now) (aim (kept_in held.now) anchors.now crls.now)) }
{
    let wanted = Holding {
        anchors: chosen(alloc, &held.anchors, anchors)?,
        crls: chosen(alloc, &held.crls, crls)?,
    };
    plan(alloc, held, &wanted)
}
