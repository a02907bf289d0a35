ghost use Rattle.std.specs.Prelude.{◌≡◌, ◌++◌, ◌∷◌, [], IfOk, Ok, OnOk, codes, decimal};
ghost use Rattle.bosh_generator.specs.Release.{file, job_file, job_files, monit_file, named_file, template_file};
ghost use Rattle.bosh_generator.specs.Release.{package_files, package_spec, packages_files, release_files, script_file, spec_file};
ghost use Rattle.bosh_release_files.specs.declared.folder.File.{File};

use crate::piece::{add, add_number};
use bosh_base::Text;
use bosh_release_files::File;
use std::alloc::{AllocError, Global};

/// So many packages, each of which but the first needs the one before.
const PACKAGES: u64 = 8;

fn text_of(alloc: Global, bytes: &[u8]) -> Result<Text, AllocError>
    ensures { IfOk result (λ text. text ≡ bytes.now) }
{
    Ok(Text::from(Vec::from_slice(alloc, bytes)?))
}

fn file(alloc: Global, path: &[u8], bytes: &[u8]) -> Result<File, AllocError>
    ensures { IfOk result (λ it. it ≡ file path.now bytes.now) }
{
    let path = text_of(alloc, path)?;
    Ok(File {
        path,
        bytes: text_of(alloc, bytes)?,
    })
}

// Adds two files that were made.
fn push_both(
    files: &mut Vec<File>,
    made: Result<(File, File), AllocError>,
) -> Result<(), AllocError>
    ensures { OnOk result ((both : File × File) × (made ≡ Ok both)
        × (files.new.items ≡ files.old.items ++ both.0 ∷ both.1 ∷ [])) }
{
    let (one, other) = made?;
    files.push(one)?;
    files.push(other)?;
    Ok(())
}

// A file of a package.
fn file_of(alloc: Global, pack: u64, name: &[u8], bytes: &[u8]) -> Result<File, AllocError>
    ensures { IfOk result (λ it. it ≡ file (codes "packages/p" ++ decimal pack ++ name.now) bytes.now) }
{
    let mut path = Vec::new(alloc);
    add_number(&mut path, b"packages/p", pack, name)?;
    file(alloc, path.as_slice(), bytes)
}

fn script_file(alloc: Global, pack: u64) -> Result<File, AllocError>
    ensures { IfOk result (λ it. it ≡ script_file pack) }
{
    file_of(alloc, pack, b"/packaging", b"")
}

fn spec_file(alloc: Global, pack: u64) -> Result<File, AllocError>
    ensures { IfOk result (λ it. it ≡ spec_file pack) }
{
    let spec = spec_of(alloc, pack)?;
    file_of(alloc, pack, b"/spec", spec.as_slice())
}

fn spec_of(alloc: Global, pack: u64) -> Result<Vec<u8>, AllocError>
    ensures { IfOk result (λ text. text.items ≡ package_spec pack) }
{
    let mut text = Vec::new(alloc);
    add_number(&mut text, b"name: p", pack, b"\n")?;
    if pack > 0 {
        add_number(&mut text, b"dependencies: [p", pack - 1, b"]\n")?;
    }
    Ok(text)
}

fn package_files(alloc: Global, pack: u64) -> Result<(File, File), AllocError>
    ensures { IfOk result (λ both. (both.0 ≡ script_file pack) × (both.1 ≡ spec_file pack)) }
{
    let script = script_file(alloc, pack)?;
    Ok((script, spec_file(alloc, pack)?))
}

fn push_package(alloc: Global, files: &mut Vec<File>, pack: u64) -> Result<(), AllocError>
    ensures { OnOk result (files.new.items ≡ files.old.items ++ package_files pack) }
{
    push_both(files, package_files(alloc, pack))
}

fn named_file(alloc: Global) -> Result<File, AllocError>
    ensures { IfOk result (λ it. it ≡ named_file) }
{
    file(alloc, b"config/final.yml", b"name: gen\n")
}

fn monit_file(alloc: Global) -> Result<File, AllocError>
    ensures { IfOk result (λ it. it ≡ monit_file) }
{
    file(alloc, b"jobs/w/monit", b"")
}

fn job_file(alloc: Global) -> Result<File, AllocError>
    ensures { IfOk result (λ it. it ≡ job_file) }
{
    file(
        alloc,
        b"jobs/w/spec",
        b"name: w\ntemplates: {w.erb: w.conf}\npackages: [p7]\n",
    )
}

fn template_file(alloc: Global) -> Result<File, AllocError>
    ensures { IfOk result (λ it. it ≡ template_file) }
{
    file(
        alloc,
        b"jobs/w/templates/w.erb",
        b"index=<%= spec.index %>\n",
    )
}

fn job_files(alloc: Global) -> Result<(File, File), AllocError>
    ensures { IfOk result (λ both. (both.0 ≡ job_file) × (both.1 ≡ template_file)) }
{
    let job = job_file(alloc)?;
    Ok((job, template_file(alloc)?))
}

fn plain_files(alloc: Global) -> Result<(File, File), AllocError>
    ensures { IfOk result (λ both. (both.0 ≡ named_file) × (both.1 ≡ monit_file)) }
{
    let named = named_file(alloc)?;
    Ok((named, monit_file(alloc)?))
}

fn push_job(alloc: Global, files: &mut Vec<File>) -> Result<(), AllocError>
    ensures { OnOk result (files.new.items ≡ files.old.items ++ job_files) }
{
    push_both(files, plain_files(alloc))?;
    push_both(files, job_files(alloc))
}

/// The files of the release: one job with one template, and eight packages, each of which but the first needs the one
/// before.
pub fn release(alloc: Global) -> Result<Vec<File>, AllocError>
    ensures { IfOk result (λ files. files.items ≡ release_files) }
{
    let mut files = Vec::new(alloc);
    push_job(alloc, &mut files)?;
    for pack in 0..PACKAGES {
        push_package(alloc, &mut files, pack)?;
    }
    Ok(files)
}
