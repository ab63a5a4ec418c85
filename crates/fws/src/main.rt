//! The program: it runs its arguments over the files and standard output, says on standard error what there is to say beside the
//! answer, and ends with the status.
#![tactic(auto)]

use fws_advice::{KeepingShelf, KeepingSink, Outcome, advise};
use fws_io::{StdShelf, StdSink};
use fws_num::{Items, Memory, Text};
use fws_top::{Status, run};
use std::env;
use std::io::ErrorKind;
use std::process::ExitCode;
use std::rt::Env;

/// How many bytes of an answer are kept, to say something of it.
const KEPT: usize = 4096;

/// Adds an argument to the words.
fn put_word(words: &mut Items<Text>, mut word: Text, argument: &str) -> Result<(), Memory> {
    word.put(argument.as_bytes())?;
    words.put(word)
}

/// The words behind the program's name, or the status where there are none: an argument that isn't UTF-8 is a bad
/// command line.
fn take_words<R: Env + AllocGlobal>(rt: &R) -> Result<Items<Text>, Status> {
    let arguments = match env::args(rt) {
        Ok(arguments) => arguments,
        Err(e) if e.kind() == ErrorKind::OutOfMemory => return Err(Status::Memory),
        Err(_) => return Err(Status::Usage),
    };
    let mut words = Items::new(rt.alloc());
    for argument in arguments.skip(1) {
        if put_word(&mut words, Text::new(rt.alloc()), argument.as_str()).is_err() {
            return Err(Status::Memory);
        }
    }
    Ok(words)
}

fn main(rt: HostRuntime) -> ExitCode {
    let status = match take_words(&rt) {
        Ok(words) => {
            let mut shelf = KeepingShelf::new(rt.alloc(), StdShelf::new(&rt));
            let mut sink = KeepingSink::new(rt.alloc(), StdSink::new(&rt), KEPT);
            let status = run(rt.alloc(), words.as_slice(), &mut shelf, &mut sink);
            let outcome = Outcome {
                texts: shelf.texts(),
                status,
                answer: sink.text(),
            };
            let errors = rt.stderr();
            advise(
                rt.alloc(),
                words.as_slice(),
                &outcome,
                &mut StdSink::new(&errors),
            );
            status
        }
        Err(status) => status,
    };
    ExitCode::from(status as u8)
}
