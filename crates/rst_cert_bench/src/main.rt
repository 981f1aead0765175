//! A driver for measurements of certificates: it makes a certificate, writes it into a file, or reads one
//! back, and prints whether it did. `bench/certificates` calls it and takes the time.
#![tactic(auto)]

mod files;
mod made;

use rst_outside::NoMemory;
use std::rt::Files;
use std::{env, io};

// The first three words: what to do, with which file, and how many lines the certificate has.
fn words(rt: &(impl std::rt::Env + AllocGlobal)) -> io::Result<(String, String, String)> {
    let mut given = env::args(rt)?.skip(1);
    let alloc = rt.alloc();
    let command = given.next().unwrap_or(String::new(alloc));
    let name = given.next().unwrap_or(String::new(alloc));
    let count = given.next().unwrap_or(String::new(alloc));
    Ok((command, name, count))
}

// Whether the command was done; an unknown one isn't.
fn is_done<R: Files + AllocGlobal>(
    rt: &R,
    command: &str,
    name: &str,
    count: u32,
) -> Result<bool, NoMemory> {
    match command {
        "make-log" => files::make(rt.alloc(), 0, count),
        "make-hops" => files::make(rt.alloc(), count, 0),
        "write-log" => files::write(rt.alloc(), rt, name, 0, count),
        "write-hops" => files::write(rt.alloc(), rt, name, count, 0),
        "read" => Ok(files::read(rt.alloc(), rt, name)),
        _ => Ok(false),
    }
}

fn main(rt: HostRuntime) -> io::Result<()> {
    let (command, name, count) = words(&rt)?;
    let count = count.as_str().parse().unwrap_or(1);
    match is_done(&rt, command.as_str(), name.as_str(), count) {
        Ok(done) => println!(rt; "done: {done}"),
        Err(NoMemory) => println!(rt; "no memory"),
    }
}
