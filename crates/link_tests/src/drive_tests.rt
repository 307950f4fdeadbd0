// A program that compiles a dependency.
ghost use Rattle.std.specs.Prelude.{IfOk};
ghost use Rattle.compiler_drive.specs.Drive.{IsDriven};

use compile_model::{How, Texts, Verdict};
use compiler_drive::drive;
use mx_base::{AppName, Bytes, ListOf, Names, RelPath, Text};
use partition_face::{MemSpawner, SpawnFault};
use partition_frames::Frame;
use std::alloc::Global;
use std::test::Fail;

fn texts(alloc: Global, words: &[&str]) -> Result<Texts, Fail> {
    let mut texts = Texts::new(alloc);
    for word in words {
        texts.push(Text::from_slice(alloc, word.as_bytes())?)?;
    }
    Ok(texts)
}

// The job of app `a` for `dev`, in `libs/a`, which needs `b` and is compiled by `cc -q`.
fn job(alloc: Global) -> Result<Frame, Fail>
    ensures { IfOk result IsDriven }
{
    let mut needs = Names::new(alloc);
    needs.push(AppName::of(alloc, b"b")?)?;
    Ok(Frame::Job {
        number: 1,
        env: AppName::of(alloc, b"dev")?,
        app: AppName::of(alloc, b"a")?,
        options: Bytes::new(alloc),
        how: How::Program(texts(alloc, &["cc", "-q"])?),
        system_env: ListOf::new(alloc),
        dir: RelPath::join(alloc, &RelPath::root(alloc), b"libs/a")?,
        needs,
    })
}

#[test]
fn a_program_is_told_its_job_and_its_needs(rt: HostRuntime) -> Result<(), Fail> {
    let alloc = rt.alloc();
    let job = job(alloc)?;
    let verdicts = vec![in alloc;
        Verdict {
            status: 3,
            text: Bytes::from_slice(alloc, b"no")?
        },
    ]?;
    let mut spawner = MemSpawner::new(alloc, verdicts, Vec::new(alloc));
    let Ok(verdict) = drive(alloc, &mut spawner, &job) else {
        return Err(Fail::new("no verdict"));
    };
    assert!(rt; verdict.status == 3 && verdict.text.as_slice() == b"no".as_slice());
    assert!(rt; matches!(drive(alloc, &mut spawner, &job), Err(SpawnFault::Failed)));
    let words = texts(
        alloc,
        &[
            "cc",
            "-q",
            "--app",
            "a",
            "--env",
            "dev",
            "--src",
            "libs/a",
            "--out",
            "_build/dev/lib/a",
            "--need",
            "b",
            "_build/dev/lib/b",
        ],
    )?;
    assert!(rt; spawner.runs().len() == 2);
    for run in spawner.runs() {
        assert!(rt; run.start.words == words);
        assert!(rt; run.start.variables.as_slice().is_empty());
    }
    Ok(())
}
