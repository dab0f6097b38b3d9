ghost use Rattle.sound_lowering.specs.SoundLaws.{LoweringIsStatic, LoweringIsWellFormed};

/// The core that comes of an accepted program in range is well formed, and has the static facts that a
/// step without undefined values needs.
pub fn sound_lowering_laws()
    ensures well_formed { LoweringIsWellFormed }
    ensures static_facts { LoweringIsStatic }
{}
