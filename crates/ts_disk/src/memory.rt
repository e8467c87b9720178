//! A disk in memory, which keeps a record of its calls, and fails when a test wants it to.

ghost use Rattle.std.specs.Prelude.{◌≡◌, IfOk, ◌⊎◌, ◌<◌, ◌≤◌, ◌^◌, ◌+◌, ◌-◌, List, ℕ, [], ◌∷◌};
ghost use Rattle.std.specs.Prelude.{◌++◌, length, true, Some, None, Err, OnOk, OnErr, IfErr, IsErr};
ghost use Rattle.ts_disk.specs.declared.call.DiskCall.TheVariants.{Read, Write, Sync};
ghost use Rattle.ts_disk.specs.declared.fault.DiskFault.TheVariants.{Failed};
ghost use Rattle.ts_disk.specs.declared.crash.Torn.TheVariants.{New};
ghost use Rattle.ts_disk.specs.Disk.{Call, Same, Torn as TornWrite, overwrite, HasCause};
ghost use Rattle.ts_disk.specs.Fuse.{up_to_last, is_refused, one_call_more};
ghost use Rattle.ts_disk.specs.Past.{history};

use crate::crash::leave;
use crate::{Disk, DiskCall, DiskFault, Torn};
use std::alloc::{AllocError, Global};

const MAX_LEN: usize = (1 << 63) - 1;

/// A disk in memory. An allocation that it is refused is a failure of the device.
#[derive(Drop)]
pub struct MemDisk {
    alloc: Global,
    first: Vec<u8>,
    calls: Vec<DiskCall>,
    octets: Vec<u8>,
    failures: u64,
    made: u64,
    fuse: Option<u64>,
    fails_at: Option<u64>,
    ghost bounded: { length octets.items < 2 ^ 63 },
    ghost replayed: { octets.items ≡ (history first.items calls.items).read },
}

impl MemDisk {
    ghost use Rattle.ts_disk.specs.Memory.{state_of, calls_of, plan_of, left_by};
    ghost use Rattle.ts_disk.specs.Disk.{IsDurable};

    /// A durable disk with these octets.
    pub fn new(alloc: Global, octets: Vec<u8>) -> Result<MemDisk, AllocError>
        ensures read { IfOk result (λ disk. (state_of disk).read ≡ octets.items) }
        ensures durable { IfOk result (λ disk. IsDurable (state_of disk)) }
        ensures plan { IfOk result (λ disk. plan_of disk
            ≡ record { made = 0; passing = None; fails_at = None }) }
    {
        Ok(MemDisk {
            alloc,
            first: octets.to_vec(alloc)?,
            calls: Vec::new(alloc),
            octets,
            failures: 0,
            made: 0,
            fuse: None,
            fails_at: None,
        })
    }

    /// All the octets, as a read gives them.
    pub fn octets(&self) -> &[u8]
        ensures { result.now ≡ (state_of self.now).read }
    {
        &self.octets
    }

    /// The calls that did not fail, in their order.
    pub fn calls(&self) -> &[DiskCall]
        ensures { result.now ≡ calls_of self.now }
    {
        &self.calls
    }

    /// Lets this many more calls pass; each later one fails.
    pub fn set_fuse(&mut self, passing: u64)
        ensures octets { (state_of self.new).read ≡ (state_of self.old).read }
        ensures failures { (state_of self.new).failures ≡ (state_of self.old).failures }
        ensures images { (image : List ℕ) → (state_of self.new).may_leave image
            → (state_of self.old).may_leave image }
        ensures kept { (image : List ℕ) → (state_of self.old).may_leave image
            → (state_of self.new).may_leave image }
        ensures calls { calls_of self.new ≡ calls_of self.old }
        ensures plan { plan_of self.new ≡ record {
          made = (plan_of self.old).made;
          passing = Some (up_to_last (plan_of self.old).made passing);
          fails_at = (plan_of self.old).fails_at;
        } }
    {
        self.fuse = Some(self.made.saturating_add(passing));
    }

    /// Lets one call alone fail: the next one for 1.
    pub fn fail_at(&mut self, call: u64)
        ensures octets { (state_of self.new).read ≡ (state_of self.old).read }
        ensures failures { (state_of self.new).failures ≡ (state_of self.old).failures }
        ensures images { (image : List ℕ) → (state_of self.new).may_leave image
            → (state_of self.old).may_leave image }
        ensures kept { (image : List ℕ) → (state_of self.old).may_leave image
            → (state_of self.new).may_leave image }
        ensures calls { calls_of self.new ≡ calls_of self.old }
        ensures plan { plan_of self.new ≡ record {
          made = (plan_of self.old).made;
          passing = (plan_of self.old).passing;
          fails_at = Some (up_to_last (plan_of self.old).made call);
        } }
    {
        self.fails_at = Some(self.made.saturating_add(call));
    }

    /// The disk that a crash now leaves, which is durable.
    pub fn crash(&self, torn: Torn) -> Result<MemDisk, AllocError>
        ensures left { IfOk result (λ disk. (state_of self.now).may_leave (state_of disk).read) }
        ensures image { IfOk result (λ disk. (state_of disk).read ≡ left_by torn self.now) }
        ensures new { torn ≡ New → IfOk result
            (λ disk. (state_of disk).read ≡ (state_of self.now).read) }
        ensures durable { IfOk result (λ disk. IsDurable (state_of disk)) }
    {
        let image = leave(self.alloc, torn, &self.first, &self.calls)?;
        MemDisk::new(self.alloc, image)
    }
}

/// Whether a disk's next call fails, which it counts as made.
fn refuses(made: &mut u64, fuse: Option<u64>, fails_at: Option<u64>) -> bool
    ensures refused { result ≡ is_refused
        (record { made = made.old; passing = fuse; fails_at = fails_at }) }
    ensures made { made.new ≡ up_to_last made.old 1 }
{
    *made = made.saturating_add(1);
    fuse.is_some_and(|passing| passing < *made) || fails_at == Some(*made)
}

/// A failure of the device, which is counted.
fn count_failure(failures: &mut u64) -> DiskFault
    ensures fault { result ≡ Failed }
    ensures rises { failures.old ≤ failures.new }
    ensures cause { (failures.old < failures.new) ⊎ (failures.new ≡ 2 ^ 64 - 1) }
{
    *failures = failures.saturating_add(1);
    DiskFault::Failed
}

/// Writes octets at an offset, over what is there and past the end.
pub(crate) fn overwrite(old: &mut Vec<u8>, at: usize, octets: &[u8]) -> Result<(), AllocError>
    requires { at ≤ length old.old.items }
    ensures written { OnOk result (old.new.items ≡ overwrite old.old.items at octets.now) }
    ensures unchanged { OnErr result (old.new.items ≡ old.old.items) }
{
    let room = (old.len() - at).min(octets.len());
    old.extend_from_slice(&octets[room..])?;
    old.as_mut_slice()[at..at + room].copy_from_slice(&octets[..room]);
    Ok(())
}

/// Keeps a call.
fn keep(calls: &mut Vec<DiskCall>, call: DiskCall) -> Result<(), AllocError>
    ensures kept { OnOk result (calls.new.items ≡ calls.old.items ++ call ∷ []) }
    ensures unchanged { OnErr result (calls.new.items ≡ calls.old.items) }
{
    calls.push(call)?;
    Ok(())
}

/// Writes, and keeps the call.
fn write(
    alloc: Global,
    calls: &mut Vec<DiskCall>,
    old: &mut Vec<u8>,
    at: usize,
    octets: &[u8],
) -> Result<(), AllocError>
    requires { at ≤ length old.old.items }
    ensures written { OnOk result (old.new.items ≡ overwrite old.old.items at octets.now) }
    ensures kept { OnOk result ((v : _) × (v.items ≡ octets.now)
        × (calls.new.items ≡ calls.old.items ++ Write at v ∷ [])) }
    ensures unchanged { OnErr result (old.new.items ≡ old.old.items) }
    ensures same_calls { OnErr result (calls.new.items ≡ calls.old.items) }
{
    let copy = octets.to_vec(alloc)?;
    keep(calls, DiskCall::Write { at, octets: copy })?;
    if overwrite(old, at, octets).is_err() {
        let _ = calls.pop();
        return Err(AllocError);
    }
    Ok(())
}

impl Disk for MemDisk {
    ghost use Rattle.ts_disk.specs.Memory.{state_of, lawful_of, plan_of};
    ghost use Rattle.ts_disk.specs.Disk.{IsDurable};
    ghost use Rattle.ts_disk.specs.declared.fault.DiskFault.TheVariants.{Memory};

    ghost state = { state_of };

    ghost lawful = { lawful_of };

    /// A read that is refused its memory is not made.
    fn read(&mut self, alloc: Global) -> Result<Vec<u8>, DiskFault>
        ensures octets { IfOk result (λ octets. octets.items ≡ (state_of self.old).read) }
        ensures same { (state_of self.new).read ≡ (state_of self.old).read }
        ensures call { Call Same (state_of self.old) (state_of self.new) }
        ensures counted { (state_of self.new).moment ≡ (state_of self.old).moment }
        ensures cause { HasCause (state_of self.old) (state_of self.new) result }
        ensures refused { is_refused (plan_of self.old) ≡ true → IsErr result }
        ensures plan { (plan_of self.new ≡ one_call_more (plan_of self.old))
            ⊎ ((result ≡ Err Memory) × (plan_of self.new ≡ plan_of self.old)) }
    {
        let octets = self.octets.to_vec(alloc)?;
        if refuses(&mut self.made, self.fuse, self.fails_at) {
            return Err(count_failure(&mut self.failures));
        }
        match keep(&mut self.calls, DiskCall::Read) {
            Ok(()) => Ok(octets),
            Err(_) => Err(count_failure(&mut self.failures)),
        }
    }

    fn write_at(&mut self, at: usize, octets: &[u8]) -> Result<(), DiskFault>
        requires { at ≤ length (state_of self.old).read }
        ensures written { OnOk result ((state_of self.new).read
            ≡ overwrite (state_of self.old).read at octets.now) }
        ensures call { Call (TornWrite at (length octets.now)) (state_of self.old)
            (state_of self.new) }
        ensures counted { OnOk result ((state_of self.new).moment
            ≡ (state_of self.old).moment + 1) }
        ensures fault { IfErr result (λ fault. fault ≡ Failed) }
        ensures cause { HasCause (state_of self.old) (state_of self.new) result }
        ensures refused { is_refused (plan_of self.old) ≡ true → result ≡ Err Failed }
        ensures plan { plan_of self.new ≡ one_call_more (plan_of self.old) }
    {
        if refuses(&mut self.made, self.fuse, self.fails_at) || octets.len() > MAX_LEN - at {
            return Err(count_failure(&mut self.failures));
        }
        match write(self.alloc, &mut self.calls, &mut self.octets, at, octets) {
            Ok(()) => Ok(()),
            Err(_) => Err(count_failure(&mut self.failures)),
        }
    }

    fn sync(&mut self) -> Result<(), DiskFault>
        ensures durable { OnOk result (IsDurable (state_of self.new)) }
        ensures same { (state_of self.new).read ≡ (state_of self.old).read }
        ensures call { Call Same (state_of self.old) (state_of self.new) }
        ensures counted { OnOk result ((state_of self.new).moment
            ≡ (state_of self.old).moment + 1) }
        ensures fault { IfErr result (λ fault. fault ≡ Failed) }
        ensures cause { HasCause (state_of self.old) (state_of self.new) result }
        ensures refused { is_refused (plan_of self.old) ≡ true → result ≡ Err Failed }
        ensures plan { plan_of self.new ≡ one_call_more (plan_of self.old) }
    {
        if refuses(&mut self.made, self.fuse, self.fails_at) {
            return Err(count_failure(&mut self.failures));
        }
        match keep(&mut self.calls, DiskCall::Sync) {
            Ok(()) => Ok(()),
            Err(_) => Err(count_failure(&mut self.failures)),
        }
    }

    fn failures(&self) -> u64 {
        self.failures
    }
}
