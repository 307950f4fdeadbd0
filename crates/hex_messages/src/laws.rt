// What holds of the definitions, of all bytes and packages.
ghost use Rattle.std.specs.Prelude.{◌≡◌, ◌⊎◌, ℕ, List};
ghost use Rattle.hex_messages.specs.declared.error.WireCause.{WireCause};
ghost use Rattle.hex_messages.specs.declared.message.Message.TheVariants as message;
ghost use Rattle.hex_messages.specs.declared.package.Package.{Package};
ghost use Rattle.hex_messages.specs.Stands.{Stands};
ghost use Rattle.hex_messages.specs.Faults.{Fault};
ghost use Rattle.hex_messages.specs.Canonical.{IsWritable, Writes};

/// Bytes that stand for a package have no fault.
pub fn faults_stand_apart()
    ensures { (bytes : List ℕ) (whole : Package) (at : ℕ) (cause : WireCause)
        → Stands bytes whole → Fault message.Package bytes at cause → ⊥ }
{}

/// Bytes stand for one package.
pub fn one_package()
    ensures { (bytes : List ℕ) (whole other : Package) → Stands bytes whole → Stands bytes other
        → whole ≡ other }
{}

/// The canonical spelling of a package that may be written stands for it.
pub fn written_reads()
    ensures { (whole : Package) (bytes : List ℕ) → IsWritable whole → Writes bytes whole
        → Stands bytes whole }
{}

/// A package has one canonical spelling.
pub fn one_spelling()
    ensures { (whole : Package) (bytes other : List ℕ) → Writes bytes whole → Writes other whole
        → bytes ≡ other }
{}

/// Bytes have one first fault.
pub fn one_fault()
    ensures { (bytes : List ℕ) (at other : ℕ) (cause another : WireCause)
        → Fault message.Package bytes at cause → Fault message.Package bytes other another
        → (at ≡ other) × (cause ≡ another) }
{}

/// Bytes stand for a package, or have a first fault.
pub fn each_stands_or_fails()
    ensures { (bytes : List ℕ) → ((whole : Package) × Stands bytes whole)
        ⊎ ((at : ℕ) × (cause : WireCause) × Fault message.Package bytes at cause) }
{}
