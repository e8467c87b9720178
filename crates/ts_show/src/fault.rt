//! Why octets are no certificate and no list.

ghost use Rattle.std.specs.Prelude.{◌≡◌, ◌++◌, OnOk, IfOk, codes};
ghost use Rattle.std.specs.Fmt.{decimal};
ghost use Rattle.ts_shape.specs.Printed.{rule_name};
ghost use Rattle.ts_cert.specs.Table.{certificate_fault};
ghost use Rattle.ts_crl.specs.Fault.{fault_in, fault_text};
ghost use Rattle.ts_crl.specs.Table.{crl_fault};
ghost use Rattle.ts_show.specs.Begins.{certificate_fault_line, list_fault_line};

use std::alloc::{AllocError, Global};
use ts_cert::Cert;
use ts_crl::{Crl, CrlFault};
use ts_line::Line;
use ts_shape::CertFault;

/// Writes the name of the rule that is broken, and its place.
#[tactic(auto, using(crate::proofs::Plain::shown_rule))]
fn write_fault(alloc: Global, line: &mut Line, fault: CertFault) -> Result<(), AllocError>
    ensures { OnOk result (line.new
        ≡ line.old ++ (rule_name fault.kind ++ (codes " at " ++ decimal fault.at))) }
{
    let name = format!(in alloc; "{}", fault.kind)?;
    line.text(name.as_bytes())?;
    line.text(b" at ")?;
    line.number(fault.at as u64)
}

/// Writes why octets are no list: the name of the rule that is broken, and its place where it has
/// one.
fn write_list_fault(alloc: Global, line: &mut Line, fault: CrlFault<'_>) -> Result<(), AllocError>
    ensures { OnOk result (line.new ≡ line.old ++ fault_text (fault_in fault.entry)) }
{
    match fault {
        CrlFault::Broken(broken) => write_fault(alloc, line, broken),
        CrlFault::NoNextUpdate => line.text(b"NoNextUpdate"),
        CrlFault::CriticalCrlExtension(_) => line.text(b"CriticalCrlExtension"),
        CrlFault::DeltaCrl => line.text(b"DeltaCrl"),
        CrlFault::Indirect => line.text(b"Indirect"),
        CrlFault::RelativeName => line.text(b"RelativeName"),
    }
}

/// The line that says why octets are no certificate; an empty one where they are.
pub(crate) fn certificate_fault_line(alloc: Global, octets: &[u8]) -> Result<Line, AllocError>
    ensures { IfOk result (λ line. line ≡ certificate_fault_line (certificate_fault octets.now)) }
{
    let Err(fault) = Cert::read(octets) else {
        return Ok(Line::new(alloc));
    };
    let mut line = Line::of(alloc, b"no certificate: ")?;
    write_fault(alloc, &mut line, fault)?;
    Ok(line)
}

/// The line that says why octets are no list; an empty one where they are.
pub(crate) fn list_fault_line(alloc: Global, octets: &[u8]) -> Result<Line, AllocError>
    ensures { IfOk result (λ line. line ≡ list_fault_line (crl_fault octets.now)) }
{
    let Err(fault) = Crl::read(octets) else {
        return Ok(Line::new(alloc));
    };
    let mut line = Line::of(alloc, b"no list: ")?;
    write_list_fault(alloc, &mut line, fault)?;
    Ok(line)
}
