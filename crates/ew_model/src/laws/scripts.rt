//! What scripts are.

ghost use Rattle.ew_model.specs.ScriptLaws.{BytesAreJudged, FirstBadLinesAreUnique, LinesMeanOneEdit, ScriptsAreUnique, ScriptsHaveNoBadLine};

/// Bytes are the script of one list of edits, or have one first bad line, and never both.
pub fn law_scripts()
    ensures one_edit { LinesMeanOneEdit }
    ensures one_script { ScriptsAreUnique }
    ensures one_bad_line { FirstBadLinesAreUnique }
    ensures not_both { ScriptsHaveNoBadLine }
    ensures one_of_both { BytesAreJudged }
{}
