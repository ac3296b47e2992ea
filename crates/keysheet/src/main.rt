//! `keysheet`: shows what stands in a packed key sheet.
#![tactic(auto)]

mod command;
mod failure;

use command::{UnknownVerb, Verb};
use failure::Failure;
use packed::Packed;
use std::process::ExitCode;
use std::{env, fs};

const USAGE: &str = "keysheet reads the key sheets of counter scales

  keysheet show FILE    checks a packed key sheet and shows what stands in it
  keysheet help         shows this page

A sheet that breaks a rule is refused by a number, which docs/REFUSALS.md
explains. The status is 0 if all went well, else 1.";

fn main(rt: HostRuntime) -> ExitCode {
    match run(&rt) {
        Ok(()) => ExitCode::SUCCESS,
        Err(failure) => {
            let _ = eprintln!(rt; "keysheet: {failure}");
            ExitCode::FAILURE
        }
    }
}

fn run(rt: &HostRuntime) -> Result<(), Failure> {
    let mut words = env::args(rt)?.skip(1);
    let word = words.next().ok_or(Failure::NoCommand)?;
    match word.parse() {
        Ok(Verb::Help) => {
            rt.println(USAGE)?;
            Ok(())
        }
        Ok(Verb::Show) => {
            let path = words.next().ok_or(Failure::NoFile)?;
            match words.next() {
                Some(extra) => Err(Failure::ExtraWord(extra)),
                None => show_file(rt, path),
            }
        }
        Err(UnknownVerb) => Err(Failure::UnknownCommand(word)),
    }
}

fn show_file(rt: &HostRuntime, path: String) -> Result<(), Failure> {
    let bytes = match fs::read(rt, path.as_str()) {
        Ok(bytes) => bytes,
        Err(error) => return Err(Failure::Unreadable { path, error }),
    };
    match Packed::open(bytes) {
        Ok(sheet) => {
            rt.print(report::show(rt.alloc(), &sheet)?)?;
            Ok(())
        }
        Err(refused) => {
            let sentence = report::explain(rt.alloc(), refused.fault)?;
            Err(Failure::Refused { path, sentence })
        }
    }
}
