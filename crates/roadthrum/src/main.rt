// Prints the evidence for the question in `query.txt` put to the day in `day.idx`, both in the folder in which it is run.
#![tactic(auto)]

mod error;
mod files;
mod show;

use error::Error;
use files::Input;
use meaning::Question;
use show::show;
use std::io;

// Prints all evidence.
fn run(rt: &HostRuntime) -> Result<(), Error> {
    // One byte more than is lawful, so that what is too long is seen to be. Of a question that is too long the rest is of no account.
    let mut index = [0u8; Input::MOST_INDEX_BYTES + 1];
    let mut text = [0u8; Question::MOST_BYTES + 1];
    let input = Input::read(rt, &mut index, &mut text)?;
    show(rt, &rt.stderr(), input)
}

// Only what can't be printed on standard output makes it fail.
fn main(rt: HostRuntime) -> io::Result<()> {
    match run(&rt) {
        Ok(()) => Ok(()),
        Err(Error::Unprintable(error)) => Err(error),
        Err(error) => println!(rt; "{error}"),
    }
}
