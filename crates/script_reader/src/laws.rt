//! What net scripts are.

ghost use Rattle.script_reader.specs.NetLaws.{FirstBadNetLinesAreUnique, LinesMeanOneStep, NetBytesAreJudged, NetScriptsAreUnique, NetScriptsHaveNoBadLine};

/// Bytes are the net script of one list of steps, or have one first bad line, and never both.
pub fn law_net_scripts()
    ensures one_step { LinesMeanOneStep }
    ensures one_script { NetScriptsAreUnique }
    ensures one_bad_line { FirstBadNetLinesAreUnique }
    ensures not_both { NetScriptsHaveNoBadLine }
    ensures one_of_both { NetBytesAreJudged }
{}
