//! Runs each script NAME.txt for the words NAME that it is given, and says whether the output is NAME.out. Then it
//! prints what a core answers that is used as a library (`library.rt`).
//!
//! The scripts are the folder `data` of this crate, which `examples` at the top of the repository is a link to.
#![tactic(auto)]

use job_core::JobCore;
use listing::Counted;
use script_run::{Fault, Upkeep, run_script};
use std::alloc::Global;
use std::io::Write;
use std::rt::{Env, Files};
use std::{env, fs, io};

mod library;

fn run(alloc: Global, script: &[u8]) -> Result<Vec<u8>, Fault> {
    let mut reader = Counted::new(script);
    let mut writer = Counted::new(Vec::new(alloc));
    run_script(alloc, Upkeep::none(), &mut reader, &mut writer)?;
    match Vec::from_slice(alloc, writer.inner()) {
        Ok(output) => Ok(output),
        Err(_) => Err(Fault::Memory),
    }
}

// Whether the script writes just this.
fn writes(alloc: Global, script: &[u8], want: &[u8]) -> bool {
    match run(alloc, script) {
        Ok(output) => output.as_slice() == want,
        Err(_) => false,
    }
}

fn writes_its_output(rt: &(impl Files + AllocGlobal), name: &str) -> io::Result<bool> {
    let script = fs::read(rt, format!(in rt.alloc(); "{name}.txt")?.as_str())?;
    let want = fs::read(rt, format!(in rt.alloc(); "{name}.out")?.as_str())?;
    Ok(writes(rt.alloc(), &script, &want))
}

fn print_scripts(rt: &(impl Env + Files + Print + AllocGlobal)) -> io::Result<()> {
    let words: Vec<String> = env::args(rt)?.collect(rt.alloc())?;
    for name in words.iter().skip(1) {
        if writes_its_output(rt, name.as_str())? {
            println!(rt; "{name}: as in {name}.out")?;
        } else {
            println!(rt; "{name}: another output than {name}.out")?;
        }
    }
    Ok(())
}

fn main(rt: HostRuntime) -> io::Result<()> {
    print_scripts(&rt)?;
    let mut core = JobCore::new(rt.alloc());
    let text = library::answers(rt.alloc(), &mut core);
    drop(core);
    io::writer(&rt).write_all(&text?)
}
