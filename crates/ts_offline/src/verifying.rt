//! A chain is judged without a node.

ghost use Rattle.std.specs.Prelude.{◌≡◌};

use std::alloc::Global;
use std::io::Print;
use std::rt::{Clock, Files};
use ts_cli::VerifyWords;
use ts_der::Oid;
use ts_files::{TaskFault, now, octets_of, put};
use ts_given::GivenFault;
use ts_judge::{GivenChain, VerifyOptions, judge};
use ts_show::Kind;
use ts_time::Moment;
use ts_verify::Host;

/// The moment that is asked about: the one that is given, else that of the clock.
fn moment_of<R: Clock>(rt: &R, words: &VerifyWords) -> Result<Moment, TaskFault> {
    match words.moment {
        Some(moment) => Ok(Moment(moment)),
        None => now(rt),
    }
}

/// The host that the leaf is to be for, if one is given.
fn host_of<'a>(rt: &impl Eprint, words: &'a VerifyWords) -> Result<Option<Host<'a>>, TaskFault> {
    let Some(name) = &words.host else {
        return Ok(None);
    };
    match Host::parse(name.as_bytes()) {
        Ok(host) => Ok(Some(host)),
        Err(fault) => {
            let _ = eprintln!(rt; "trustd: {name}: {fault}");
            Err(TaskFault::Field)
        }
    }
}

/// The purpose that the leaf is to have, if one is given, as the content octets of its object
/// identifier.
fn purpose_of(alloc: Global, words: &VerifyWords) -> Result<Option<Vec<u8>>, TaskFault> {
    match &words.purpose {
        Some(purpose) => Ok(Some(Vec::from_slice(alloc, purpose.as_ref().content)?)),
        None => Ok(None),
    }
}

/// The policies that the user accepts.
fn policies_of(alloc: Global, words: &VerifyWords) -> Result<Vec<Oid>, TaskFault> {
    let mut policies = Vec::new(alloc);
    for policy in words.policies.as_slice() {
        policies.push(Oid::from_oid(alloc, policy.as_ref())?)?;
    }
    Ok(policies)
}

/// What the files and the words give.
fn given_by<R: Files + Eprint>(
    rt: &R,
    alloc: Global,
    words: &VerifyWords,
) -> Result<GivenChain, TaskFault> {
    Ok(GivenChain {
        anchors: octets_of(rt, alloc, &words.anchors, Kind::Certificate)?,
        certificates: octets_of(rt, alloc, &words.certificates, Kind::Certificate)?,
        crls: octets_of(rt, alloc, &words.crls, Kind::List)?,
        policies: policies_of(alloc, words)?,
        purpose: purpose_of(alloc, words)?,
    })
}

/// How the words want a chain to be judged.
fn options_of(words: &VerifyWords, moment: Moment) -> VerifyOptions
    ensures { result ≡ record {
      moment = moment;
      soft = words.now.soft;
      use_deltas = words.now.deltas;
      explicit_policy = words.now.explicit;
      inhibit_policy_mapping = words.now.nomap;
      inhibit_any_policy = words.now.noany;
    } }
{
    VerifyOptions {
        moment,
        soft: words.soft,
        use_deltas: words.deltas,
        explicit_policy: words.explicit,
        inhibit_policy_mapping: words.nomap,
        inhibit_any_policy: words.noany,
    }
}

/// Says on standard error how many anchors of a bundle are no certificates: they are passed over.
fn say_passed(rt: &impl Eprint, given: usize, taken: usize) {
    let passed = given.saturating_sub(taken);
    if passed > 0 {
        let _ = eprintln!(rt;
            "trustd: {passed} anchors are no certificates by RFC 5280, and are passed over"
        );
    }
}

/// Says on standard error what is wrong with what is given.
fn say_fault(rt: &impl Eprint, fault: GivenFault<'_>) -> TaskFault {
    let _ = eprintln!(rt; "trustd: {fault}");
    TaskFault::from(fault)
}

/// Judges the chain that words name, by signatures that are checked here, and prints the verdict
/// and what it means. Whether the chain is valid.
///
/// # Errors
///
/// Those of the files; `Field` where one holds no certificate or CRL, or the host's name is none;
/// `OutOfLimits` where there is no certificate, or are more than 33; `Clock`; `Memory`; `Write`.
pub fn verify_files<R: AllocGlobal + Files + Clock + Print + Eprint>(
    rt: &R,
    words: &VerifyWords,
) -> Result<bool, TaskFault> {
    let alloc = rt.alloc();
    let moment = moment_of(rt, words)?;
    let given = given_by(rt, alloc, words)?;
    let host = host_of(rt, words)?;
    let options = options_of(words, moment);
    let judgement = match judge(alloc, &given, &options, host, words.json) {
        Ok(judgement) => judgement,
        Err(fault) => return Err(say_fault(rt, fault)),
    };
    say_passed(rt, given.anchors.len(), judgement.anchors);
    put(rt, &judgement.text)?;
    Ok(judgement.is_valid)
}
