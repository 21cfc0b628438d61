//! Worked examples of moves: what is printed of a document in which entries and items stand elsewhere.

ghost use Rattle.std.specs.Prelude.{◌≡◌, [], codes};
ghost use Rattle.yspec_examples.specs.CompilingSamples.{net_module};
ghost use Rattle.yspec_examples.specs.MoveSamples.{rules_lost, rules_module, rules_twice, three_hosts, two_named_alike};
ghost use Rattle.yspec_examples.specs.Printing.{found};
ghost use Rattle.yspec_examples.specs.RunExamples.{dumped, faulty, scripted};

/// An entry moved up or down, among others that keep their order: where it is told, and how the document is written.
pub fn entries_moved()
    ensures up { scripted net_module three_hosts (codes "move /ex-net:net/host[3] 1")
        ≡ found 1 (codes "V4 data-missing missing-choice /ex-net:net/host[1] mode\n1 faults\n") }
    ensures up_written { dumped net_module three_hosts (codes "move /ex-net:net/host[3] 1")
        ≡ found 1 (codes "{\"ex-net:net\":{\"host\":[{\"name\":\"c\"},{\"auto\":[null],\"name\":\"a\"},{\"auto\":[null],\"name\":\"b\"}]}}\n") }
    ensures down { scripted net_module three_hosts (codes "move /ex-net:net/host[1] 3")
        ≡ found 1 (codes "V4 data-missing missing-choice /ex-net:net/host[2] mode\n1 faults\n") }
    ensures down_written { dumped net_module three_hosts (codes "move /ex-net:net/host[1] 3")
        ≡ found 1 (codes "{\"ex-net:net\":{\"host\":[{\"auto\":[null],\"name\":\"b\"},{\"name\":\"c\"},{\"auto\":[null],\"name\":\"a\"}]}}\n") }
    ensures one_down { scripted net_module three_hosts (codes "move /ex-net:net/host[2] 3")
        ≡ found 1 (codes "V4 data-missing missing-choice /ex-net:net/host[2] mode\n1 faults\n") }
    ensures where_it_is { dumped net_module three_hosts (codes "move /ex-net:net/host[name='b'] 2")
        ≡ found 1 (codes "{\"ex-net:net\":{\"host\":[{\"auto\":[null],\"name\":\"a\"},{\"auto\":[null],\"name\":\"b\"},{\"name\":\"c\"}]}}\n") }
    ensures there_and_back { dumped net_module three_hosts (codes "move /ex-net:net/host[1] 3\nmove /ex-net:net/host[name='a'] 1")
        ≡ found 1 (codes "{\"ex-net:net\":{\"host\":[{\"auto\":[null],\"name\":\"a\"},{\"auto\":[null],\"name\":\"b\"},{\"name\":\"c\"}]}}\n") }
{}

/// Why a move is refused, and that the others are done.
pub fn moves_refused()
    ensures past_the_end { dumped net_module three_hosts (codes "move /ex-net:net/host[name='a'] 4\nmove /ex-net:net/host[4] 1\nmove /ex-net:net/host[4] 4")
        ≡ faulty (codes "line 1: E5\nline 2: E5\nline 3: E5\n") (codes "{\"ex-net:net\":{\"host\":[{\"auto\":[null],\"name\":\"a\"},{\"auto\":[null],\"name\":\"b\"},{\"name\":\"c\"}]}}\n") }
    ensures no_such_entry { dumped net_module three_hosts (codes "move /ex-net:net/host[name='z'] 1\nmove /ex-net:net/host[name='z'] 9")
        ≡ faulty (codes "line 1: E7\nline 2: E7\n") (codes "{\"ex-net:net\":{\"host\":[{\"auto\":[null],\"name\":\"a\"},{\"auto\":[null],\"name\":\"b\"},{\"name\":\"c\"}]}}\n") }
    ensures no_entry { dumped net_module three_hosts (codes "move /ex-net:net 1\nmove /ex-net:net/host 1\nmove /ex-net:net/host[1]/name 1\nmove /ex-net:net/host[9]/name 1\nmove /ex-net:net/host[1]/name[1] 1")
        ≡ faulty (codes "line 1: E3\nline 2: E3\nline 3: E3\nline 4: E3\nline 5: E3\n") (codes "{\"ex-net:net\":{\"host\":[{\"auto\":[null],\"name\":\"a\"},{\"auto\":[null],\"name\":\"b\"},{\"name\":\"c\"}]}}\n") }
    ensures unknown { dumped net_module three_hosts (codes "move /ex-net:net/host[1]/nam 1\nmove /net/host[1] 1")
        ≡ faulty (codes "line 1: E2\nline 2: E2\n") (codes "{\"ex-net:net\":{\"host\":[{\"auto\":[null],\"name\":\"a\"},{\"auto\":[null],\"name\":\"b\"},{\"name\":\"c\"}]}}\n") }
    ensures two_such_entries { dumped net_module two_named_alike (codes "move /ex-net:net/host[name='a'] 2\nmove /ex-net:net/host[2] 1")
        ≡ faulty (codes "line 1: E6\n") (codes "{\"ex-net:net\":{\"host\":[{\"auto\":[null],\"name\":\"a\"},{\"auto\":[null],\"name\":\"a\"}]}}\n") }
    ensures above_nothing { dumped net_module (codes "{\"ex-net:net\":{\"host\":[]}}") (codes "move /ex-net:net/host[1] 1\nmove /ex-net:net/host[name='a'] 1")
        ≡ faulty (codes "line 1: E5\nline 2: E7\n") (codes "{\"ex-net:net\":{}}\n") }
{}

/// How the position is spelled; one too large for its number is past the end.
pub fn texts_of_moves()
    ensures spaces { dumped net_module three_hosts (codes "move  /ex-net:net/host[3]   1  \r\n")
        ≡ found 1 (codes "{\"ex-net:net\":{\"host\":[{\"name\":\"c\"},{\"auto\":[null],\"name\":\"a\"},{\"auto\":[null],\"name\":\"b\"}]}}\n") }
    ensures no_position { dumped net_module three_hosts (codes "move /ex-net:net/host[3]\nmove /ex-net:net/host[3] \nmove /ex-net:net/host[3]1")
        ≡ faulty (codes "line 1: E1\nline 2: E1\nline 3: E1\n") (codes "{\"ex-net:net\":{\"host\":[{\"auto\":[null],\"name\":\"a\"},{\"auto\":[null],\"name\":\"b\"},{\"name\":\"c\"}]}}\n") }
    ensures no_number { dumped net_module three_hosts (codes "move /ex-net:net/host[3] 0\nmove /ex-net:net/host[3] 01\nmove /ex-net:net/host[3] +1\nmove /ex-net:net/host[3] 1.0\nmove /ex-net:net/host[3] \"1\"\nmove /ex-net:net/host[3] -1")
        ≡ faulty (codes "line 1: E1\nline 2: E1\nline 3: E1\nline 4: E1\nline 5: E1\nline 6: E1\n") (codes "{\"ex-net:net\":{\"host\":[{\"auto\":[null],\"name\":\"a\"},{\"auto\":[null],\"name\":\"b\"},{\"name\":\"c\"}]}}\n") }
    ensures more_behind { dumped net_module three_hosts (codes "move /ex-net:net/host[3] 1 1\nmove /ex-net:net/host[3] 1 # up\nmove /ex-net:net/host[3] 1,2\nmove /ex-net:net/host[3] 1\t")
        ≡ faulty (codes "line 1: E1\nline 2: E1\nline 3: E1\nline 4: E1\n") (codes "{\"ex-net:net\":{\"host\":[{\"auto\":[null],\"name\":\"a\"},{\"auto\":[null],\"name\":\"b\"},{\"name\":\"c\"}]}}\n") }
    ensures far { dumped net_module three_hosts (codes "move /ex-net:net/host[3] 4294967295\nmove /ex-net:net/host[3] 4294967296\nmove /ex-net:net/host[3] 99999999999999999999")
        ≡ faulty (codes "line 1: E5\nline 2: E5\nline 3: E5\n") (codes "{\"ex-net:net\":{\"host\":[{\"auto\":[null],\"name\":\"a\"},{\"auto\":[null],\"name\":\"b\"},{\"name\":\"c\"}]}}\n") }
    ensures other_words { dumped net_module three_hosts (codes "Move /ex-net:net/host[3] 1\nmoved /ex-net:net/host[3] 1\n move /ex-net:net/host[3] 1\nmove\t/ex-net:net/host[3] 1")
        ≡ faulty (codes "line 1: E1\nline 2: E1\nline 3: E1\nline 4: E1\n") (codes "{\"ex-net:net\":{\"host\":[{\"auto\":[null],\"name\":\"a\"},{\"auto\":[null],\"name\":\"b\"},{\"name\":\"c\"}]}}\n") }
{}

/// Items are moved among those of their leaf-list, also where it has equal ones, and those of an entry among its own.
pub fn items_moved()
    ensures equal_ones { dumped rules_module rules_twice (codes "move /r:server[1] 2")
        ≡ found 1 (codes "{\"r:rule\":[{\"id\":1,\"port\":5},{\"id\":2},{\"id\":1},{\"id\":3,\"port\":5}],\"r:server\":[\"y\",\"x\",\"x\"]}\n") }
    ensures equal_ones_told { scripted rules_module rules_twice (codes "move /r:server[1] 2")
        ≡ found 1 (codes "V8 operation-failed - /r:rule[1] -\nV9 operation-failed data-not-unique /r:rule[1] 1\nV8 operation-failed - /r:rule[3] -\nV9 operation-failed data-not-unique /r:rule[4] 1\nV10 operation-failed - /r:server[2] -\nV10 operation-failed - /r:server[3] -\n6 faults\n") }
    ensures of_an_entry { dumped rules_module rules_lost (codes "move /r:rule[3]/tag[3] 1\nmove /r:rule[id='3']/tag[3] 2\nmove /r:rule[1]/tag[1] 1\nmove /r:rule[4]/tag[1] 1")
        ≡ faulty (codes "line 3: E5\nline 4: E5\n") (codes "{\"r:rule\":[{\"id\":1},{\"id\":2,\"to\":\"z\"},{\"id\":3,\"tag\":[\"a\",\"b\",\"a\"],\"to\":\"y\"}],\"r:seen\":[7,7,8],\"r:server\":[\"x\",\"y\"]}\n") }
    ensures of_state { dumped rules_module rules_lost (codes "move /r:seen[3] 1")
        ≡ found 1 (codes "{\"r:rule\":[{\"id\":1},{\"id\":2,\"to\":\"z\"},{\"id\":3,\"tag\":[\"a\",\"b\",\"a\"],\"to\":\"y\"}],\"r:seen\":[8,7,7],\"r:server\":[\"x\",\"y\"]}\n") }
    ensures by_keys { dumped rules_module rules_lost (codes "move /r:server[.='x'] 2")
        ≡ faulty (codes "line 1: E1\n") (codes "{\"r:rule\":[{\"id\":1},{\"id\":2,\"to\":\"z\"},{\"id\":3,\"tag\":[\"a\",\"b\",\"a\"],\"to\":\"y\"}],\"r:seen\":[7,7,8],\"r:server\":[\"x\",\"y\"]}\n") }
    ensures of_another_row { dumped rules_module rules_lost (codes "move /r:server[2] 3\nmove /r:server[3] 2\nmove /r:rule[3] 1\nmove /r:rule[2] 4")
        ≡ faulty (codes "line 1: E5\nline 2: E5\nline 4: E5\n") (codes "{\"r:rule\":[{\"id\":3,\"tag\":[\"a\",\"b\",\"a\"],\"to\":\"y\"},{\"id\":1},{\"id\":2,\"to\":\"z\"}],\"r:seen\":[7,7,8],\"r:server\":[\"x\",\"y\"]}\n") }
{}

/// What is told moves with its entry: the pairs with one key, those with one value of a unique, and what stands below one.
pub fn faults_in_their_order()
    ensures told_before { scripted rules_module rules_twice []
        ≡ found 1 (codes "V8 operation-failed - /r:rule[1] -\nV9 operation-failed data-not-unique /r:rule[1] 1\nV8 operation-failed - /r:rule[3] -\nV9 operation-failed data-not-unique /r:rule[4] 1\nV10 operation-failed - /r:server[1] -\nV10 operation-failed - /r:server[3] -\n6 faults\n") }
    ensures first_down { scripted rules_module rules_twice (codes "move /r:rule[1] 4")
        ≡ found 1 (codes "V8 operation-failed - /r:rule[2] -\nV9 operation-failed data-not-unique /r:rule[3] 1\nV8 operation-failed - /r:rule[4] -\nV9 operation-failed data-not-unique /r:rule[4] 1\nV10 operation-failed - /r:server[1] -\nV10 operation-failed - /r:server[3] -\n6 faults\n") }
    ensures last_up { scripted rules_module rules_twice (codes "move /r:rule[4] 1")
        ≡ found 1 (codes "V9 operation-failed data-not-unique /r:rule[1] 1\nV8 operation-failed - /r:rule[2] -\nV9 operation-failed data-not-unique /r:rule[2] 1\nV8 operation-failed - /r:rule[4] -\nV10 operation-failed - /r:server[1] -\nV10 operation-failed - /r:server[3] -\n6 faults\n") }
    ensures between { scripted rules_module rules_twice (codes "move /r:rule[2] 1")
        ≡ found 1 (codes "V8 operation-failed - /r:rule[2] -\nV9 operation-failed data-not-unique /r:rule[2] 1\nV8 operation-failed - /r:rule[3] -\nV9 operation-failed data-not-unique /r:rule[4] 1\nV10 operation-failed - /r:server[1] -\nV10 operation-failed - /r:server[3] -\n6 faults\n") }
    ensures below_one { scripted rules_module rules_lost (codes "move /r:rule[3] 1\nmove /r:rule[3] 2")
        ≡ found 1 (codes "V10 operation-failed - /r:rule[1]/tag[1] -\nV10 operation-failed - /r:rule[1]/tag[3] -\nV11 data-missing instance-required /r:rule[2]/to -\n3 faults\n") }
    ensures items_below_one { scripted rules_module rules_lost (codes "move /r:rule[3]/tag[2] 1\nmove /r:rule[3] 1")
        ≡ found 1 (codes "V10 operation-failed - /r:rule[1]/tag[2] -\nV10 operation-failed - /r:rule[1]/tag[3] -\nV11 data-missing instance-required /r:rule[3]/to -\n3 faults\n") }
{}
