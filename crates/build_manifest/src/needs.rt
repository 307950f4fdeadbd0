// The needs of a mark, read.
ghost use Rattle.std.specs.Prelude.{◌≡◌, ◌<◌, ◌↔◌, ◌++◌, ◌∷◌, [], length, ℕ, List, MatchResult, IfOk, IfNone, IfSome, IsTrue};
ghost use Rattle.reading.specs.Field.{FitInTurn};
ghost use Rattle.mx_base.specs.AppName.{IsAppName};
ghost use Rattle.build_manifest.specs.Fields.{StopsBy, ended};
ghost use Rattle.build_manifest.specs.Mark.{NeedFits, limit};
ghost use Rattle.build_manifest.specs.Names.{BeginsFree, HasApps, IsFreeFront, IsFreeName, NoneHas};
ghost use Rattle.build_manifest.specs.Text.{need_text};

use crate::digits::read_lead;
use crate::mark::Need;
use crate::names::{MAX_NAME_LEN, longer, may_stand, name_front, name_of};
use indexmap::IndexSet;
use mx_base::AppName;
use reading::{Fault, stuck_at};
use std::alloc::{AllocError, Global};

/// Needs so far, and their apps.
#[derive(Drop)]
pub(crate) struct Needs {
    listed: Vec<Need>,
    apps: IndexSet<AppName>,
    ghost same: { HasApps apps listed.items },
}

impl Needs {
    pub(crate) fn new(alloc: Global) -> Needs
        ensures { result.listed.items ≡ [] }
    {
        Needs {
            listed: Vec::new(alloc),
            apps: IndexSet::new(alloc),
        }
    }

    /// With one need more.
    pub(crate) fn with(self, need: Need) -> Result<Needs, AllocError>
        requires { NeedFits self.listed.items need }
        ensures { IfOk result (λ needs. needs.listed.items ≡ self.listed.items ++ need ∷ []) }
    {
        let Needs {
            mut listed,
            mut apps,
        } = self;
        apps.insert(need.1.clone()?)?;
        listed.push(need)?;
        Ok(Needs { listed, apps })
    }

    pub(crate) fn into_vec(self) -> Vec<Need>
        ensures { result.items ≡ self.listed.items }
    {
        let Needs { listed, apps } = self;
        drop(apps);
        listed
    }

    // Whether no need has this name.
    fn is_free(&self, name: &AppName) -> bool
        ensures { IsTrue result ↔ NoneHas self.now.listed.items name.now }
    {
        !self.apps.contains(name)
    }

    // Whether some name that begins so has no need. Of the names that begin so, this looks only at
    // those that have one, and at one more.
    fn begins_free(&self, alloc: Global, name: &AppName) -> Result<bool, AllocError>
        ensures { IfOk result (λ free. IsTrue free ↔ BeginsFree self.now.listed.items name.now) }
    {
        let length = name.as_str().len();
        if self.is_free(name) {
            return Ok(true);
        }
        if length == MAX_NAME_LEN {
            return Ok(false);
        }
        'bytes: for byte in b'0'..=b'z' {
            if may_stand(1, byte) {
                let longer = longer(alloc, name, byte)?;
                if self.begins_free(alloc, &longer)? {
                    return Ok(true);
                }
            }
        }
        Ok(false)
    }

    // The longest front of a name with which some name begins that no need has.
    fn free_front<'a>(&self, alloc: Global, name: &'a [u8]) -> Result<&'a [u8], AllocError>
        requires few { length self.now.listed.items < limit }
        requires name { IsAppName name.now }
        ensures { IfOk result (λ front. IsFreeFront self.now.listed.items name.now front.now) }
    {
        let mut front = name;
        'fronts: while !front.is_empty() {
            let begun = name_of(alloc, front)?;
            if self.begins_free(alloc, &begun)? {
                return Ok(front);
            }
            front = &front[..front.len() - 1];
        }
        Ok(front)
    }
}

// What stands behind a newline.
fn after_newline(text: &[u8]) -> Option<&[u8]>
    ensures some { IfSome result (λ rest. text.now ≡ 10 ∷ rest.now) }
    ensures none { IfNone result ((others : List ℕ) → text.now ≡ 10 ∷ others → ⊥) }
{
    let [first, rest @ ..] = text else {
        return None;
    };
    if *first == b'\n' { Some(rest) } else { None }
}

// The name at the front of a text, which no need has and which a newline ends.
fn read_name<'a>(alloc: Global, needs: &Needs, text: &'a [u8]) -> Result<(AppName, &'a [u8]), Fault>
    requires few { length needs.now.listed.items < limit }
    ensures { MatchResult result
        (λ read. IsFreeName needs.now.listed.items read.0 × (text.now ≡ ended read.0 ++ read.1.now))
        (StopsBy ended (IsFreeName needs.now.listed.items) text.now) }
{
    let front = name_front(text);
    if front.is_empty() {
        return Err(Fault::Stuck(stuck_at(text)));
    }
    let app = name_of(alloc, front)?;
    if !needs.is_free(&app) {
        let free = needs.free_front(alloc, front)?;
        return Err(Fault::Stuck(stuck_at(&text[free.len()..])));
    }
    let behind = &text[front.len()..];
    let Some(rest) = after_newline(behind) else {
        return Err(Fault::Stuck(stuck_at(behind)));
    };
    Ok((app, rest))
}

/// A need of an app that none of these has.
pub(crate) fn read_need<'a>(
    alloc: Global,
    needs: &Needs,
    text: &'a [u8],
) -> Result<(Need, &'a [u8]), Fault>
    requires few { length needs.now.listed.items < limit }
    ensures { MatchResult result
        (λ read. NeedFits needs.now.listed.items read.0
        × (text.now ≡ need_text read.0 ++ read.1.now))
        (StopsBy need_text (NeedFits needs.now.listed.items) text.now) }
{
    let (digest, rest) = match read_lead(text) {
        Ok(read) => read,
        Err(stuck) => return Err(Fault::Stuck(stuck)),
    };
    let (app, rest) = read_name(alloc, needs, rest)?;
    Ok(((digest, app), rest))
}
