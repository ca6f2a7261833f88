//! Makes images, an array over them and what an array does, as the lines of its input ask for it.
#![tactic(auto)]

mod answers;
mod array_lines;
mod certified;
mod image_lines;
mod jobs;
mod looks;
mod making;
mod mounting;
mod no_array;
mod owning;
mod scanning;
mod seen;
mod shape;
mod store;

use crate::mounting::run_lines;
use fa_image::{FileImage, MemImage};
use flasharr_lab_lines::{FAULTY, Lab, Script};
use flasharr_lab_parts::{DieImage, Fused, Yard, new_heap};
use std::process::ExitCode;
use std::thread::Threads;
use std::{env, io};

fn main(rt: HostRuntime) -> io::Result<ExitCode> {
    let words: Vec<String> = env::args(&rt)?.skip(1).collect(rt.alloc())?;
    match words.as_slice() {
        [] => run::<HostRuntime, Fused<MemImage>>(&rt, &rt, ""),
        [folder] => run::<HostRuntime, Fused<FileImage>>(&rt, &rt, folder.as_str()),
        _ => {
            println!(rt; "usage: flasharr_lab [FOLDER]")?;
            Ok(ExitCode::from(FAULTY))
        }
    }
}

/// Does what the lines of the input ask for, with images of this kind.
fn run<T: Threads + Sync, I: DieImage + Send>(
    rt: &HostRuntime,
    threads: &T,
    folder: &str,
) -> io::Result<ExitCode> {
    let mut script = Script::new(rt)?;
    let heap = new_heap(rt.alloc());
    let mut lab = Lab::new(rt, &heap);
    let mut yard: Yard<'_, I> = Yard {
        folder,
        geometry: None,
        images: Vec::new(&heap),
        bare: None,
    };
    run_lines(threads, &mut script, &mut lab, &mut yard);
    Ok(script.turn.finish(&mut lab.tools))
}
