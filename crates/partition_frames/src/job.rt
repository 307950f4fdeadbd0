// The frame of a job, read in three pieces.
ghost use Rattle.std.specs.Prelude.{◌≡◌, ◌++◌, MatchResult};
ghost use Rattle.partition_frames.specs.Field.{together};
ghost use Rattle.partition_frames.specs.Frame.{fields_of};
ghost use Rattle.partition_frames.specs.Pieces.{IsHeadOf, IsPlaceOf, IsWorkOf, LacksBy, head_of, place_of, work_of};
ghost use Rattle.partition_frames.specs.Reading.{IsOfKind};

use crate::fields::{read_folder, read_name, read_number, read_text};
use crate::frame::Frame;
use crate::lists::{read_how, read_names, read_variables};
use compile_model::How;
use mx_base::{AppName, Bytes, Names, RelPath, Variables};
use reading::Fault;
use std::alloc::Global;

/// Which job is meant.
#[derive(Drop)]
pub(crate) struct Head {
    pub(crate) number: u32,
    pub(crate) env: AppName,
    pub(crate) app: AppName,
}

/// How it is compiled.
#[derive(Drop)]
pub(crate) struct Work {
    pub(crate) options: Bytes,
    pub(crate) how: How,
    pub(crate) system_env: Variables,
}

/// Where it lies, and what it needs.
#[derive(Drop)]
pub(crate) struct Place {
    pub(crate) dir: RelPath,
    pub(crate) needs: Names,
}

fn read_head(alloc: Global, text: &[u8]) -> Result<(Head, &[u8]), Fault>
    ensures { MatchResult result
        (λ read. IsHeadOf read.0 × (text.now ≡ together (head_of read.0) ++ read.1.now))
        (LacksBy head_of IsHeadOf text.now) }
{
    let (number, rest) = read_number(text)?;
    let (env, rest) = read_name(alloc, rest)?;
    let (app, rest) = read_name(alloc, rest)?;
    Ok((Head { number, env, app }, rest))
}

fn read_work(alloc: Global, text: &[u8]) -> Result<(Work, &[u8]), Fault>
    ensures { MatchResult result
        (λ read. IsWorkOf read.0 × (text.now ≡ together (work_of read.0) ++ read.1.now))
        (LacksBy work_of IsWorkOf text.now) }
{
    let (options, rest) = read_text(text)?;
    let (how, rest) = read_how(alloc, rest)?;
    let (system_env, rest) = read_variables(alloc, rest)?;
    let work = Work {
        options: Bytes::from_slice(alloc, options)?,
        how,
        system_env,
    };
    Ok((work, rest))
}

fn read_place(alloc: Global, text: &[u8]) -> Result<(Place, &[u8]), Fault>
    ensures { MatchResult result
        (λ read. IsPlaceOf read.0 × (text.now ≡ together (place_of read.0) ++ read.1.now))
        (LacksBy place_of IsPlaceOf text.now) }
{
    let (dir, rest) = read_folder(alloc, text)?;
    let (needs, rest) = read_names(alloc, rest)?;
    Ok((Place { dir, needs }, rest))
}

fn job_of(head: Head, work: Work, place: Place) -> Frame
    requires head { IsHeadOf head }
    requires work { IsWorkOf work }
    requires place { IsPlaceOf place }
    ensures sound { IsOfKind 2 result }
    ensures fields { fields_of result ≡ head_of head ++ (work_of work ++ place_of place) }
{
    let Head { number, env, app } = head;
    let Work {
        options,
        how,
        system_env,
    } = work;
    let Place { dir, needs } = place;
    Frame::Job {
        number,
        env,
        app,
        options,
        how,
        system_env,
        dir,
        needs,
    }
}

/// The body of a job's frame.
pub(crate) fn read_job(alloc: Global, text: &[u8]) -> Result<(Frame, &[u8]), Fault>
    ensures { MatchResult result
        (λ read. IsOfKind 2 read.0 × (text.now ≡ together (fields_of read.0) ++ read.1.now))
        (LacksBy fields_of (IsOfKind 2) text.now) }
{
    let (head, rest) = read_head(alloc, text)?;
    let (work, rest) = read_work(alloc, rest)?;
    let (place, rest) = read_place(alloc, rest)?;
    Ok((job_of(head, work, place), rest))
}
