// The needs of a job, and the faces of their units.
ghost use Rattle.std.specs.Prelude.{◌≡◌, length, option_map, IfOk};
ghost use Rattle.mx_base.specs.Order.{bytes_at};
ghost use Rattle.compile_model.specs.Content.{needs_of};
ghost use Rattle.unit_compile.specs.Faces.{face_name};
ghost use Rattle.unit_compile.specs.Lines.{face_bytes};

use compile_model::Outcome;
use mx_base::{AppName, File, Shared, Text};
use std::alloc::{AllocError, Global};

/// The needs of a job: their apps, and their outcomes.
#[derive(Clone, Copy)]
pub(crate) struct Needs<'a> {
    apps: &'a [AppName],
    outcomes: &'a [Shared<Outcome>],
    ghost paired: { length apps.now ≡ length outcomes.now },
}

impl<'a> Needs<'a> {
    ghost use Rattle.unit_compile.specs.Views.{needs_in};

    /// The needs of the input's job.
    pub(crate) fn of(apps: &'a [AppName], outcomes: &'a [Shared<Outcome>]) -> Needs<'a>
        requires { length apps.now ≡ length outcomes.now }
        ensures { needs_in result ≡ needs_of apps.now outcomes.now }
    {
        Needs { apps, outcomes }
    }

    /// The face of a unit of the first need of that name.
    pub(crate) fn face(
        &self,
        alloc: Global,
        app: &AppName,
        unit: &Text,
    ) -> Result<Option<&'a [u8]>, AllocError>
        ensures { IfOk result (λ bytes. option_map (λ b. b.now) bytes
            ≡ face_bytes (needs_in self.now) app.now unit.now) }
    {
        let name = face_name(alloc, unit.as_slice())?;
        for (place, other) in self.apps.iter().enumerate() {
            if app == other {
                let files = self.outcomes[place].get().files.as_slice();
                return Ok(bytes_at(files, name.as_slice()));
            }
        }
        Ok(None)
    }
}

/// The name of a unit's face.
pub(crate) fn face_name(alloc: Global, unit: &[u8]) -> Result<Vec<u8>, AllocError>
    ensures { IfOk result (λ name. name.items ≡ face_name unit.now) }
{
    let mut name = Vec::from_slice(alloc, unit)?;
    name.extend_from_slice(b".face")?;
    Ok(name)
}

// The bytes of the file at a path.
fn bytes_at<'a>(files: &'a [File], path: &[u8]) -> Option<&'a [u8]>
    ensures { option_map (λ b. b.now) result ≡ bytes_at path.now files.now }
{
    for file in files {
        if path.cmp(file.path.as_str().as_bytes()).is_eq() {
            return Some(file.bytes.as_slice());
        }
    }
    None
}
