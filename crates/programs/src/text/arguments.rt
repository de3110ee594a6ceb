//! The arguments of a program.
use crate::text::fault::Fault;
use std::env;
use std::io::ErrorKind;
use std::rt::Env;

/// Returns the arguments of the process without the program's name. The usage line is that of the
/// program.
///
/// # Errors
///
/// Fails with [`Fault::Usage`] if an argument is not UTF-8, and with [`Fault::Memory`] if an
/// allocation fails.
pub fn read_arguments<R: Env + AllocGlobal>(
    rt: &R,
    usage: &'static str,
) -> Result<Vec<String>, Fault> {
    let mut words = match env::args(rt) {
        Ok(words) => words,
        Err(error) if error.kind() == ErrorKind::OutOfMemory => return Err(Fault::Memory),
        Err(_) => return Err(Fault::Usage(usage)),
    };
    let _name = words.next();
    Ok(words.collect(rt.alloc())?)
}
