use crate::case::Case;
use crate::file::{File, take_file_line};
use anyhow::{Context, Result, bail};
use std::alloc::Global;

/// The cases of a text. The files before the first of them join those that are shared.
pub fn read_cases(alloc: Global, text: &str, shared: &mut Vec<File>) -> Result<Vec<Case>> {
    let mut cases = Vec::new(alloc);
    for (k, line) in text.lines().enumerate() {
        read_line(alloc, line, shared, &mut cases).context(format_args!(
            "line {}",
            k.saturating_add(1)
        ))?;
    }
    Ok(cases)
}

fn read_line(
    alloc: Global,
    line: &str,
    shared: &mut Vec<File>,
    cases: &mut Vec<Case>,
) -> Result<()> {
    if line.is_empty() || line.starts_with('#') {
        return Ok(());
    }
    if let Some(name) = line.strip_prefix("case ") {
        cases.push(Case::new(alloc, name)?)?;
        return Ok(());
    }
    if let Some(case) = cases.last_mut() {
        return case.take_line(alloc, line, shared.as_slice());
    }
    let parts = line.split_once(' ').unwrap_or((line, ""));
    if !take_file_line(alloc, parts, shared, &[])? {
        bail!("{:?} begins no line before the first case", parts.0);
    }
    Ok(())
}
