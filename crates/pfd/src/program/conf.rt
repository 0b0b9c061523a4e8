//! What is asked of a pf.conf. What files hold no clause can say, so here it is only tested; pfd_conf says what it does with what was read.

use pf_addr::path::Path;
use pfd_conf::{
    Cases, Fault as ConfFault, Firewall, Mode, Tally, Tried, check, given_interfaces, read_cases,
    read_conf, take_noting,
};
use pfd_files::Fault;
use pfd_words::{ConfTask, Question};
use std::alloc::Global;
use std::fs::{File, Files};
use std::io::{BufWriter, Write};

/// Answers what is asked of a pf.conf.
///
/// `Fault::Reported`: what is wrong with a file was written to the faults; or the answer says it: a case has another verdict than is wanted, or a
/// rule decides no case.
pub(crate) fn answer<S: Files<File = File>, W: Write, F: Write>(
    alloc: Global,
    files: &S,
    task: &ConfTask<'_>,
    writer: &mut W,
    faults: &mut F,
) -> Result<(), Fault> {
    match answered(alloc, files, task, writer, faults) {
        Ok(true) => Ok(()),
        Ok(false) => Err(Fault::Reported),
        Err(fault) => Err(report_conf_fault(fault, faults)),
    }
}

/// What the program says of why there is no answer.
pub(crate) fn report_conf_fault<F: Write>(fault: ConfFault, faults: &mut F) -> Fault {
    match fault {
        ConfFault::Memory => Fault::Memory,
        ConfFault::Output => Fault::Output,
        fault => {
            let _ = writeln!(faults, "{fault}");
            Fault::Reported
        }
    }
}

// The same; whether nothing is wrong.
fn answered<S: Files<File = File>, W: Write, F: Write>(
    alloc: Global,
    files: &S,
    task: &ConfTask<'_>,
    writer: &mut W,
    faults: &mut F,
) -> Result<bool, ConfFault> {
    match &task.question {
        Question::Meaning { anchor } => {
            show(alloc, files, task, anchor.unwrap_or("-"), writer, faults)?;
            Ok(true)
        }
        Question::Matches { packet } => {
            let firewall = firewall(alloc, files, task, faults)?;
            firewall.explain(alloc, writer, packet)?;
            Ok(true)
        }
        Question::Coverage { cases } => {
            let firewall = firewall(alloc, files, task, faults)?;
            let cases = all_cases(alloc, files, cases)?;
            let tried = firewall.judged(alloc, &cases)?;
            firewall.cover(alloc, writer, &tried)
        }
        Question::Outcomes { cases, tap, junit } => {
            let firewall = firewall(alloc, files, task, faults)?;
            let cases = all_cases(alloc, files, cases)?;
            let tried = firewall.judged(alloc, &cases)?;
            if let Some(path) = junit {
                write_junit(alloc, files, path, &firewall, &tried)?;
            }
            if *tap {
                firewall.report_tap(alloc, writer, &tried)?;
            } else {
                firewall.report(alloc, writer, &tried)?;
            }
            Ok(Tally::of(&tried).failed == 0)
        }
    }
}

/// How a file is read.
pub(crate) fn mode_of(is_lenient: bool) -> Mode {
    if is_lenient {
        Mode::Lenient
    } else {
        Mode::Strict
    }
}

// Writes what the file means, read for the rulesets from the path on that is typed so.
fn show<S: Files<File = File>, W: Write, F: Write>(
    alloc: Global,
    files: &S,
    task: &ConfTask<'_>,
    anchor: &str,
    writer: &mut W,
    faults: &mut F,
) -> Result<(), ConfFault> {
    let Ok(base) = Path::from_ascii(anchor.as_bytes()) else {
        return Err(ConfFault::anchor(alloc, anchor)?);
    };
    let interfaces = given_interfaces(alloc, &task.interfaces)?;
    let read = |name: &[u8]| read_conf(alloc, files, name);
    check(
        alloc,
        &read,
        interfaces.as_slice(),
        mode_of(task.is_lenient),
        &base,
        task.path,
        writer,
        faults,
    )
}

// The rules and tables of the file. What is noted of it goes to the faults.
fn firewall<S: Files<File = File>, F: Write>(
    alloc: Global,
    files: &S,
    task: &ConfTask<'_>,
    faults: &mut F,
) -> Result<Firewall, ConfFault> {
    let interfaces = given_interfaces(alloc, &task.interfaces)?;
    let read = |name: &[u8]| read_conf(alloc, files, name);
    let taken = take_noting(
        alloc,
        &read,
        interfaces.as_slice(),
        mode_of(task.is_lenient),
        &Path::main(),
        task.path,
        faults,
    )?;
    Ok(Firewall::of(alloc, taken)?)
}

// The files of cases, read one after another.
fn all_cases<S: Files<File = File>>(
    alloc: Global,
    files: &S,
    names: &[&str],
) -> Result<Vec<Cases>, ConfFault> {
    let mut cases = Vec::new(alloc);
    for name in names {
        cases.push(read_cases(alloc, files, name)?)?;
    }
    Ok(cases)
}

// Writes the outcomes to the file, in JUnit's XML.
fn write_junit<S: Files<File = File>>(
    alloc: Global,
    files: &S,
    path: &str,
    firewall: &Firewall,
    tried: &[Tried<'_>],
) -> Result<(), ConfFault> {
    let Ok(file) = File::create(files, path) else {
        return Err(ConfFault::unwritten(alloc, path)?);
    };
    let Ok(mut out) = BufWriter::new(alloc, file) else {
        return Err(ConfFault::Memory);
    };
    match firewall.report_junit(alloc, &mut out, tried) {
        Err(ConfFault::Output) => Err(ConfFault::unwritten(alloc, path)?),
        done => done,
    }
}
