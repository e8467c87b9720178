//! Files for the programs of a client: encoded commands and questions; the ids of anchors and
//! CRLs; what files hold.

use std::alloc::Global;
use std::io::{ErrorKind, Print};
use std::rt::{Clock, Files};
use ts_cli::{
    CommandAction, CommandWords, QuestionWords, command_octets, id_text, question_octets,
};
use ts_files::{
    MAX_SHOWN, TaskFault, certificate_of, certificates_of, crl_of, draw_id, octets_of,
    output_fault, put, read_at_most, read_within, say_other, second, values_in, values_of,
    vouch_for_file,
};
use ts_pem::{PemFault, is_pem, read_certificates, read_crls};
use ts_show::{Kind, show};

/// The id of a command: the one that is given, or a new one, which is printed on standard error, so
/// that the command can be known again.
fn id_of(
    rt: &(impl AllocGlobal + Files + Eprint),
    words: &CommandWords,
) -> Result<[u8; 16], TaskFault> {
    if let Some(id) = words.id {
        return Ok(id);
    }
    let id = draw_id(rt)?;
    let text = hex::encode(rt.alloc(), id)?;
    match eprintln!(rt; "{text}") {
        Ok(()) => Ok(id),
        Err(_) => Err(TaskFault::Write),
    }
}

/// Writes the encoded command that words say to standard output.
///
/// # Errors
///
/// Those of the file with the certificate or CRL; `BadCrl` where an issuer of the CRL is given
/// and something speaks against it; `TooLong`; `File` where no id can be drawn; `Write`.
pub fn make_command(
    rt: &(impl AllocGlobal + Files + Clock + Print + Eprint),
    words: &CommandWords,
) -> Result<(), TaskFault> {
    let alloc = rt.alloc();
    let contents = match &words.change {
        CommandAction::Add { file } => certificate_of(rt, alloc, file.as_str(), words.force)?,
        CommandAction::Load {
            file,
            issuers,
            unchecked,
        } => {
            let octets = crl_of(rt, alloc, file.as_str(), words.force)?;
            if !*unchecked && !issuers.is_empty() {
                vouch_for_file(rt, alloc, file.as_str(), &octets, issuers)?;
            }
            octets
        }
        _ => Vec::new(alloc),
    };
    let id = id_of(rt, words)?;
    let octets = command_octets(alloc, &id, &words.change, &contents)?;
    put(rt, &octets)
}

/// Writes the encoded question that words say to standard output.
///
/// # Errors
///
/// Those of the files with the certificates; `OutOfLimits`; `Write`.
pub fn make_question(
    rt: &(impl AllocGlobal + Files + Print + Eprint),
    words: &QuestionWords,
) -> Result<(), TaskFault> {
    let alloc = rt.alloc();
    let certificates = octets_of(rt, alloc, &words.files, Kind::Certificate)?;
    let octets = question_octets(alloc, words, &certificates)?;
    put(rt, &octets)
}

/// Prints the ids by which a store knows the trust anchors or the CRLs in a file, a line each: of
/// PEM those of its certificates, or where it has none of its CRLs.
///
/// # Errors
///
/// Those of the file; `Field` where a block is broken, or a text of PEM has neither certificates
/// nor CRLs; `Write`, `Closed`.
pub fn print_id(
    rt: &(impl AllocGlobal + Files + Print + Eprint),
    file: &str,
) -> Result<(), TaskFault> {
    let alloc = rt.alloc();
    let mut values = certificates_of(rt, alloc, file)?;
    if values.is_empty() {
        values = values_in(rt, alloc, file, Kind::List)?;
    }
    for octets in &values {
        let text = id_text(alloc, octets)?;
        println!(rt; "{text}").map_err(output_fault)?;
    }
    Ok(())
}

/// The octets of the blocks of a text of PEM, certificates first.
fn blocks_of(alloc: Global, octets: &[u8]) -> Result<Vec<Vec<u8>>, PemFault> {
    let mut values = read_certificates(alloc, octets)?;
    for crl in read_crls(alloc, octets)? {
        if values.push(crl).is_err() {
            return Err(PemFault::OutOfMemory);
        }
    }
    Ok(values)
}

/// Prints what the blocks of a text of PEM hold, one after another. Where it has none that is read,
/// standard error says what it holds.
fn show_blocks(
    rt: &(impl AllocGlobal + Print + Eprint),
    file: &str,
    octets: &[u8],
) -> Result<(), TaskFault> {
    let alloc = rt.alloc();
    let blocks = values_of(rt, file, blocks_of(alloc, octets))?;
    if blocks.is_empty() {
        let _is_known = say_other(rt, alloc, file, Kind::Certificate, octets)?;
        return Err(TaskFault::Field);
    }
    for block in &blocks {
        let text = show(alloc, block, &[])?;
        put(rt, &text)?;
    }
    Ok(())
}

/// Prints what a file holds; of PEM what each certificate and then each CRL is. A record lies in
/// two files; where the second can't be read it is taken for an empty one.
///
/// # Errors
///
/// Those of the file; `TooLong` above 4 GiB; `Field` where a block of PEM is broken, or none is of
/// these; `Write`.
pub fn show_file(
    rt: &(impl AllocGlobal + Files + Print + Eprint),
    file: &str,
) -> Result<(), TaskFault> {
    let alloc = rt.alloc();
    let octets = read_within(rt, alloc, file, MAX_SHOWN)?;
    if is_pem(&octets) {
        return show_blocks(rt, file, &octets);
    }
    let other = match read_at_most(rt, alloc, second(alloc, file)?.as_str(), MAX_SHOWN) {
        Ok(Some(other)) => other,
        Ok(None) => return Err(TaskFault::TooLong),
        Err(error) if error.kind() == ErrorKind::OutOfMemory => return Err(TaskFault::Memory),
        Err(_) => Vec::new(alloc),
    };
    let text = show(alloc, &octets, &other)?;
    put(rt, &text)
}
