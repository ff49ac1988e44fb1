//! What is printed reads back.

ghost use Rattle.std.specs.Prelude.{◌≡◌, ◌++◌, ◌∷◌, ℕ, List, Some, Ok};
ghost use Rattle.lks_drill.specs.Drill.{drill_of};
ghost use Rattle.lks_script.specs.Grammar.{script_of};
ghost use Rattle.lks_script.specs.StepLines.{step_in};
ghost use Rattle.lks_script.specs.declared.steps.Script.{Script};
ghost use Rattle.lks_script.specs.declared.steps.Step.{Step};
ghost use Rattle.lks_words.specs.Words.{parts};
ghost use Rattle.lks_print.specs.Said.{IsSaid};
ghost use Rattle.lks_print.specs.Steps.{key_of, more_of};
ghost use Rattle.lks_words.specs.Steps.{spaced};

/// Each step that a script can say is printed as words that say it, and the printed line is split into these words.
pub fn every_step_reads_back()
    ensures again { (key : List ℕ) (more : List (List ℕ)) (step : Step) → step_in key more ≡ Some step
        → step_in (key_of step) (more_of step) ≡ Some step }
    ensures splits { (key : List ℕ) (more : List (List ℕ)) (step : Step) → step_in key more ≡ Some step
        → parts 32 (key_of step ++ spaced (more_of step)) ≡ key_of step ∷ more_of step }
{}

/// Each script that some bytes say can be said.
pub fn every_script_read_is_said()
    ensures { (bytes : List ℕ) (script : Script) → script_of bytes ≡ Ok script → IsSaid script }
{}

/// Each drill can be said.
pub fn every_drill_is_said()
    ensures { (seed : ℕ) → IsSaid (drill_of seed) }
{}
