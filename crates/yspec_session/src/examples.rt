//! Worked examples of sessions.

ghost use Rattle.std.specs.Prelude.{◌≡◌, [], ◌∷◌, codes, Some, None};
ghost use Rattle.yspec_session.specs.Session.{listed, done, refused, nothing_remembered, has_begun, not_begun, not_understood};
ghost use Rattle.yspec_session.specs.Carrying.{difference};
ghost use Rattle.yspec_session.specs.Samples.{talk, talk_of_all, talk_of_configuration, lacks, lacks_id, lacks_up, has_up, becomes, code_refused, first_gone};

/// What became wrong and right with an edit, at positions as they are behind it.
pub fn edits()
    ensures moves_up { talk (codes "remove /p:l[1]" ∷ codes "faults" ∷ [])
        ≡ Some (becomes 1 1 [] [] ∷ listed (lacks 1 ∷ []) 1 ∷ []) }
    ensures moved { talk (codes "move /p:l[2] 3" ∷ codes "faults" ∷ []) ≡ Some (becomes 1 1 [] [] ∷ listed (lacks 3 ∷ []) 1 ∷ []) }
    ensures moved_behind { talk (codes "move /p:l[3] 1" ∷ codes "faults" ∷ []) ≡ Some (becomes 1 1 [] [] ∷ listed (lacks 3 ∷ []) 1 ∷ []) }
    ensures removed { talk (codes "remove /p:l[2]" ∷ []) ≡ Some (becomes 1 0 [] (lacks 2 ∷ []) ∷ []) }
    ensures created { talk (codes "create /p:l {\"k\":\"d\"}" ∷ []) ≡ Some (becomes 1 2 (lacks 4 ∷ []) [] ∷ []) }
    ensures another_entry { talk (codes "remove /p:l[1]/m" ∷ codes "create /p:l[2]/m 2" ∷ [])
        ≡ Some (becomes 1 2 (lacks 1 ∷ []) [] ∷ becomes 2 1 [] (lacks 2 ∷ []) ∷ []) }
    ensures refused_edits { talk (codes "remove /p:l[3]" ∷ codes "remove /p:l[4]" ∷ codes "remove /p:x" ∷ codes "undo" ∷ codes "faults" ∷ [])
        ≡ Some (becomes 1 1 [] [] ∷ code_refused 5 ∷ code_refused 2 ∷ becomes 1 1 [] [] ∷ listed (lacks 2 ∷ []) 1 ∷ []) }
{}

/// What is gone stands where it stood.
pub fn gone()
    ensures stood { difference first_gone (lacks 2 ∷ []) [] ≡ record { told = []; gone = lacks 2 ∷ [] } }
    ensures stays { difference first_gone (lacks 2 ∷ []) (lacks 1 ∷ []) ≡ record { told = []; gone = [] } }
    ensures is_gone { difference first_gone (lacks 1 ∷ []) (lacks 1 ∷ []) ≡ record { told = lacks 1 ∷ []; gone = lacks 1 ∷ [] } }
{}

/// What comes back.
pub fn undone()
    ensures entry { talk (codes "remove /p:l[1]" ∷ codes "undo" ∷ codes "faults" ∷ [])
        ≡ Some (becomes 1 1 [] [] ∷ becomes 1 1 [] [] ∷ listed (lacks 2 ∷ []) 1 ∷ []) }
    ensures fault { talk (codes "remove /p:l[2]" ∷ codes "undo" ∷ [])
        ≡ Some (becomes 1 0 [] (lacks 2 ∷ []) ∷ becomes 0 1 (lacks 2 ∷ []) [] ∷ []) }
    ensures place { talk (codes "move /p:l[1] 3" ∷ codes "undo" ∷ []) ≡ Some (becomes 1 1 [] [] ∷ becomes 1 1 [] [] ∷ []) }
    ensures limit { talk (codes "remove /p:l[1]" ∷ codes "remove /p:l[1]" ∷ codes "remove /p:l[1]" ∷ codes "undo" ∷ codes "undo" ∷ codes "undo" ∷ [])
        ≡ Some (becomes 1 1 [] [] ∷ becomes 1 0 [] (lacks 1 ∷ []) ∷ becomes 0 0 [] [] ∷ becomes 0 0 [] [] ∷ becomes 0 1 (lacks 1 ∷ []) []
        ∷ refused nothing_remembered ∷ []) }
    ensures nothing { talk (codes "undo" ∷ []) ≡ Some (refused nothing_remembered ∷ []) }
{}

/// Edits that stand or fall together.
pub fn together()
    ensures fallen { talk (codes "begin" ∷ codes "remove /p:l[1]" ∷ codes "remove /p:l[1]" ∷ codes "back" ∷ codes "faults" ∷ codes "undo" ∷ [])
        ≡ Some (done ∷ becomes 1 1 [] [] ∷ becomes 1 0 [] (lacks 1 ∷ []) ∷ becomes 0 1 (lacks 2 ∷ []) [] ∷ listed (lacks 2 ∷ []) 1
        ∷ refused nothing_remembered ∷ []) }
    ensures one_to_take_back { talk (codes "begin" ∷ codes "remove /p:l[3]" ∷ codes "remove /p:l[1]" ∷ codes "commit" ∷ codes "undo" ∷ codes "undo" ∷ [])
        ≡ Some (done ∷ becomes 1 1 [] [] ∷ becomes 1 1 [] [] ∷ done ∷ becomes 1 1 [] [] ∷ refused nothing_remembered ∷ []) }
    ensures turned_back { talk (codes "begin" ∷ codes "remove /p:l[1]" ∷ codes "move /p:l[1] 2" ∷ codes "back" ∷ [])
        ≡ Some (done ∷ becomes 1 1 [] [] ∷ becomes 1 1 [] [] ∷ becomes 1 1 [] [] ∷ []) }
    ensures turned_back_as_one { talk (codes "begin" ∷ codes "remove /p:l[1]" ∷ codes "move /p:l[1] 2" ∷ codes "commit" ∷ codes "undo" ∷ [])
        ≡ Some (done ∷ becomes 1 1 [] [] ∷ becomes 1 1 [] [] ∷ done ∷ becomes 1 1 [] [] ∷ []) }
    ensures no_further { talk (codes "remove /p:l[1]" ∷ codes "begin" ∷ codes "undo" ∷ [])
        ≡ Some (becomes 1 1 [] [] ∷ done ∷ refused nothing_remembered ∷ []) }
    ensures misplaced { talk (codes "commit" ∷ codes "back" ∷ codes "begin" ∷ codes "begin" ∷ [])
        ≡ Some (refused not_begun ∷ refused not_begun ∷ done ∷ refused has_begun ∷ []) }
{}

/// What is asked of the document.
pub fn questions()
    ensures pages { talk (codes "remove /p:l[1]/m" ∷ codes "faults 2" ∷ codes "faults 1 1" ∷ codes "faults 3" ∷ [])
        ≡ Some (becomes 1 2 (lacks 1 ∷ []) [] ∷ listed (lacks 2 ∷ []) 2 ∷ listed (lacks 1 ∷ []) 2 ∷ listed [] 2 ∷ []) }
    ensures within { talk (codes "below /p:l" ∷ codes "below /p:l[2]" ∷ codes "below /p:l[2]/m" ∷ codes "below /p:l[1]" ∷ [])
        ≡ Some (listed (lacks 2 ∷ []) 1 ∷ listed (lacks 2 ∷ []) 1 ∷ listed (lacks 2 ∷ []) 1 ∷ listed [] 1 ∷ []) }
    ensures above_nothing { talk (codes "below /p:c/y" ∷ codes "below /p:l[k='b']/m" ∷ [])
        ≡ Some (listed [] 1 ∷ listed (lacks 2 ∷ []) 1 ∷ []) }
    ensures refused_places { talk (codes "below /p:l[4]" ∷ codes "value /p:l[2]/m" ∷ codes "value /p:l" ∷ [])
        ≡ Some (code_refused 5 ∷ code_refused 7 ∷ code_refused 3 ∷ []) }
    ensures unknown_lines { talk (codes "" ∷ codes "faults 0" ∷ codes "undo it" ∷ codes "save" ∷ codes "value /p:l[1] 5" ∷ codes "end" ∷ codes "faults" ∷ [])
        ≡ Some (not_understood ∷ not_understood ∷ not_understood ∷ not_understood ∷ not_understood ∷ []) }
{}

/// Of the configuration alone no state is wanted, and what is stored of it is told first.
pub fn configuration_alone()
    ensures whole { talk_of_all (codes "faults" ∷ codes "create /s:host[2]/up true" ∷ [])
        ≡ Some (listed (lacks_up 1 ∷ lacks_id 1 ∷ lacks_up 2 ∷ []) 3 ∷ becomes 3 2 [] (lacks_up 2 ∷ []) ∷ []) }
    ensures unasked { talk_of_configuration (codes "faults" ∷ [])
        ≡ Some (listed (lacks_id 1 ∷ []) 1 ∷ []) }
    ensures state_first { talk_of_configuration (codes "create /s:host[2]/up true" ∷ codes "faults" ∷ codes "below /s:host[2]" ∷ [])
        ≡ Some (becomes 1 2 (has_up 2 ∷ []) [] ∷ listed (has_up 2 ∷ lacks_id 1 ∷ []) 2 ∷ listed (has_up 2 ∷ []) 2 ∷ []) }
    ensures gone { talk_of_configuration (codes "create /s:host[2]/up true" ∷ codes "remove /s:host[1]" ∷ codes "remove /s:host[1]/up" ∷ [])
        ≡ Some (becomes 1 2 (has_up 2 ∷ []) [] ∷ becomes 2 1 [] (lacks_id 1 ∷ []) ∷ becomes 1 0 [] (has_up 1 ∷ []) ∷ []) }
    ensures comes_back { talk_of_configuration (codes "create /s:host[2]/up true" ∷ codes "remove /s:host[1]" ∷ codes "undo" ∷ codes "undo" ∷ [])
        ≡ Some (becomes 1 2 (has_up 2 ∷ []) [] ∷ becomes 2 1 [] (lacks_id 1 ∷ []) ∷ becomes 1 2 (lacks_id 1 ∷ []) [] ∷ becomes 2 1 [] (has_up 2 ∷ []) ∷ []) }
    ensures fallen { talk_of_configuration (codes "begin" ∷ codes "create /s:host[1]/up true" ∷ codes "create /s:host[1]/id 2" ∷ codes "back" ∷ [])
        ≡ Some (done ∷ becomes 1 2 (has_up 1 ∷ []) [] ∷ becomes 2 1 [] (lacks_id 1 ∷ []) ∷ becomes 1 1 (lacks_id 1 ∷ []) (has_up 1 ∷ []) ∷ []) }
{}
