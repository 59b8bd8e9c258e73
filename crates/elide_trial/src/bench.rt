//! Files that are tried side by side, a block of as many as there are threads after another.
//!
//! [`try_all`] waits for all of a block and takes them in the order of the names, up to the first that was not tried:
//! those behind it are dropped, though they may have been tried. So what is told does not depend on the threads. One
//! file is tried by `trial`.

ghost use Rattle.std.specs.Prelude.{◌≡◌, ◌+◌, ◌<◌, ◌≤◌, IfNone, IfOk, OnSome, length, vec_len};
ghost use Rattle.std.specs.List.{All};
ghost use Rattle.elide_test.specs.Tried.{IsTried};
ghost use Rattle.elide_trial.specs.Came.{CameTo};

use crate::ending::CommandEnd;
use crate::trial::try_file;
use elide_test::{FileReport, FolderPaths, SharedPaths, Stop, Trials};
use std::alloc::{AllocError, Global};
use std::thread;
use std::thread::Threads;
use text_out::ToVec;

/// Tries files, so many side by side, up to the first that cannot be tried. Each command is carried out by a call.
pub fn try_all<
    R: Threads + Sync,
    S: SharedPaths + Sync,
    C: Fn(&[&str], FolderPaths<'_, S>, ToVec) -> CommandEnd + Sync,
>(
    rt: &R,
    alloc: Global,
    paths: &S,
    jobs: usize,
    names: &[String],
    call: &C,
) -> Result<Trials, AllocError>
    requires some { 0 < jobs }
    requires callable { C.IsAlwaysCallable call.now }
    ensures tried { IfOk result (λ trials.
        All (IsTried (S.holds paths.now) (CameTo (C.post call.now) paths.now)) trials.files.items) }
    ensures whole { IfOk result (λ trials. IfNone trials.stop (vec_len trials.files ≡ length names.now)) }
{
    let mut files = Vec::new(alloc);
    let mut first = 0;
    'turns: while first < names.len() {
        let end = block_end(first, jobs, names.len());
        let block = try_block(rt, alloc, paths, &names[first..end], call)?;
        let stop = take(paths, call, block, &mut files);
        if stop.is_some() {
            return Ok(Trials { files, stop });
        }
        first = end;
    }
    Ok(Trials { files, stop: None })
}

// Tries each of these files in a thread of its own. The last is the first of the list.
fn try_block<
    R: Threads + Sync,
    S: SharedPaths + Sync,
    C: Fn(&[&str], FolderPaths<'_, S>, ToVec) -> CommandEnd + Sync,
>(
    rt: &R,
    alloc: Global,
    paths: &S,
    names: &[String],
    call: &C,
) -> Result<Vec<Result<FileReport, Stop>>, AllocError>
    requires { C.IsAlwaysCallable call.now }
    ensures tried { IfOk result (λ block. All (λ file.
        IfOk file (IsTried (S.holds paths.now) (CameTo (C.post call.now) paths.now))) block.items) }
    ensures len { IfOk result (λ block. vec_len block ≡ length names.now) }
{
    let try_one = |index: usize| -> Result<FileReport, Stop>
        requires { C.IsAlwaysCallable call.now × (index < length names.now) }
    { try_from_end(alloc, paths, names, index, call) };
    thread::map_indices(rt, alloc, names.len(), &try_one)
}

// Tries a file, counted from the end.
fn try_from_end<S: SharedPaths, C: Fn(&[&str], FolderPaths<'_, S>, ToVec) -> CommandEnd>(
    alloc: Global,
    paths: &S,
    names: &[String],
    index: usize,
    call: &C,
) -> Result<FileReport, Stop>
    requires within { index < length names.now }
    requires callable { C.IsAlwaysCallable call.now }
    ensures { IfOk result (IsTried (S.holds paths.now) (CameTo (C.post call.now) paths.now)) }
{
    // From the end, so that [`take`] pops the first of them first.
    let name = &names[names.len() - 1 - index];
    try_file(alloc, name.as_str(), paths, call)
}

// Takes files from the end of a list, up to one that was not tried.
fn take<S: SharedPaths, C: Fn(&[&str], FolderPaths<'_, S>, ToVec) -> CommandEnd>(
    _paths: &S,
    _call: &C,
    block: Vec<Result<FileReport, Stop>>,
    files: &mut Vec<FileReport>,
) -> Option<Stop>
    requires block { All (λ file.
        IfOk file (IsTried (S.holds _paths.now) (CameTo (C.post _call.now) _paths.now))) block.items }
    requires files { All (IsTried (S.holds _paths.now) (CameTo (C.post _call.now) _paths.now)) files.old.items }
    ensures tried { All (IsTried (S.holds _paths.now) (CameTo (C.post _call.now) _paths.now)) files.new.items }
    ensures whole { IfNone result (vec_len files.new ≡ vec_len files.old + vec_len block) }
{
    let mut rest = block;
    'files: while let Some(file) = rest.pop() {
        match file {
            Ok(file) => {
                if files.push(file).is_err() {
                    return Some(Stop::NoMemory);
                }
            }
            Err(stop) => return Some(stop),
        }
    }
    None
}

// Where the files end that are tried side by side.
fn block_end(first: usize, jobs: usize, count: usize) -> usize
    requires some { 0 < jobs }
    requires within { first < count }
    ensures more { first < result }
    ensures most { result ≤ count }
{
    if count - first <= jobs {
        count
    } else {
        first + jobs
    }
}
