//! Lines of a key and a name, an object identifier, a moment or what a CRL covers.

use crate::lines::Lines;
use std::alloc::AllocError;
use ts_ext::IssuingDistributionPoint;
use ts_line::{write_general, write_moment, write_name, write_oid, write_point};
use ts_name::{General, Name};

/// A line of a key and a distinguished name.
pub(crate) fn name_line(
    lines: &mut Lines,
    depth: usize,
    key: &str,
    name: Name<'_>,
) -> Result<(), AllocError> {
    let mut line = lines.begin(depth, key)?;
    line.word(b"")?;
    write_name(lines.alloc(), &mut line, name)?;
    lines.push(line)
}

/// A line of a key and an object identifier of these contents octets.
pub(crate) fn oid_line(
    lines: &mut Lines,
    depth: usize,
    key: &str,
    content: &[u8],
) -> Result<(), AllocError> {
    let mut line = lines.begin(depth, key)?;
    line.word(b"")?;
    write_oid(lines.alloc(), &mut line, content)?;
    lines.push(line)
}

/// A line of a key and a general name.
pub(crate) fn general_line(
    lines: &mut Lines,
    depth: usize,
    key: &str,
    general: General<'_>,
) -> Result<(), AllocError> {
    let mut line = lines.begin(depth, key)?;
    line.word(b"")?;
    write_general(lines.alloc(), &mut line, general)?;
    lines.push(line)
}

/// A line of a key and a moment.
pub(crate) fn moment_line(
    lines: &mut Lines,
    depth: usize,
    key: &str,
    seconds: i64,
) -> Result<(), AllocError> {
    let mut line = lines.begin(depth, key)?;
    line.word(b"")?;
    write_moment(lines.alloc(), &mut line, seconds)?;
    lines.push(line)
}

/// A line of what a CRL covers.
pub(crate) fn scope_line(
    lines: &mut Lines,
    point: IssuingDistributionPoint<'_>,
) -> Result<(), AllocError> {
    let mut line = lines.begin(1, "scope")?;
    line.word(b"")?;
    write_point(lines.alloc(), &mut line, point)?;
    lines.push(line)
}
