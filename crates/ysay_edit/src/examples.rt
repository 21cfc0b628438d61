//! What is said of edits that are refused.

ghost use Rattle.std.specs.Prelude.{◌≡◌, ◌∷◌, ◌++◌, [], codes};
ghost use Rattle.ysay_edit.specs.Samples.{edit_now, edit_on, edit_under, edit_with_choice};
ghost use Rattle.ysay_edit.specs.Spelling.{said_of_line};

/// Edits with names in their paths that aren't known, or not in that form (E2).
pub fn paths()
    ensures near { edit_under 2 (codes "remove /p:hots/name")
        ≡ codes "nothing called \"p:hots\" may stand here; near it: p:host." }
    ensures far { edit_under 2 (codes "create /p:host/uplink 1")
        ≡ codes "nothing called \"uplink\" may stand here." }
    ensures below_an_entry { edit_under 2 (codes "replace /p:host/port[2]/sped 1")
        ≡ codes "nothing called \"sped\" may stand here; near it: speed." }
    ensures below_a_leaf { edit_under 2 (codes "remove /p:host/name/first")
        ≡ codes "nothing called \"first\" may stand here." }
    ensures without_module { edit_under 2 (codes "remove /host/name")
        ≡ codes "here \"host\" is written p:host." }
    ensures with_module { edit_under 2 (codes "remove /p:host/p:name")
        ≡ codes "here \"p:name\" is written name." }
    ensures first { edit_under 2 (codes "remove /p:host/nmae/sped")
        ≡ codes "nothing called \"nmae\" may stand here; near it: name." }
    ensures known { edit_under 2 (codes "remove /p:host/port[id='1']/speed") ≡ [] }
{}

/// Edits with the names of choices and cases in their paths (E2).
pub fn choices()
    ensures a_choice { edit_with_choice (codes "remove /p:wan/address/dhcp")
        ≡ codes "address is a choice: leave it out of the path." }
    ensures with_module { edit_with_choice (codes "remove /p:wan/p:address/dhcp")
        ≡ codes "p:address is a choice: leave it out of the path." }
    ensures a_case { edit_with_choice (codes "remove /p:wan/fixed/static")
        ≡ codes "fixed is a case: leave it out of the path." }
    ensures inner { edit_with_choice (codes "remove /p:wan/family/old")
        ≡ codes "family is a choice: leave it out of the path." }
    ensures of_a_leaf { edit_with_choice (codes "remove /p:wan/p:dhcp")
        ≡ codes "here \"p:dhcp\" is written dhcp." }
    ensures elsewhere { edit_with_choice (codes "remove /address")
        ≡ codes "nothing called \"address\" may stand here." }
{}

/// Edits with predicates that are missing, out of place, or of another kind than is due (E3).
pub fn predicates()
    ensures of_list { edit_under 3 (codes "remove /p:host/port/speed")
        ≡ codes "port is a list: write port[id='..'] or port[1]." }
    ensures other_key { edit_under 3 (codes "remove /p:host/port[speed='1']")
        ≡ codes "port is a list: write port[id='..'] or port[1]." }
    ensures of_leaf_list { edit_under 3 (codes "remove /p:host/tag")
        ≡ codes "tag is a leaf-list: write tag[1]." }
    ensures of_container { edit_under 3 (codes "remove /p:host[1]/name")
        ≡ codes "p:host is a container: no predicate stands behind it." }
    ensures of_leaf { edit_under 3 (codes "replace /p:host/name[1] 1")
        ≡ codes "name is a leaf: no predicate stands behind it." }
    ensures of_added_entry { edit_under 3 (codes "create /p:host/port[1] {}")
        ≡ codes "create adds the entry last: write port without a predicate." }
    ensures of_added_item { edit_under 3 (codes "create /p:host/tag[1] 1")
        ≡ codes "create adds the item last: write tag without a predicate." }
    ensures of_added_leaf { edit_under 3 (codes "create /p:host/name[1] 1")
        ≡ codes "name is a leaf: no predicate stands behind it." }
    ensures below_an_entry { edit_under 3 (codes "create /p:host/port/speed 1")
        ≡ codes "port is a list: write port[id='..'] or port[1]." }
    ensures in_place { edit_under 3 (codes "remove /p:host/port[id='1']/speed") ≡ [] }
    ensures of_moved_list { edit_under 3 (codes "move /p:host/port 2")
        ≡ codes "port is a list: write port[id='..'] or port[1]." }
    ensures of_moved_leaf { edit_under 3 (codes "move /p:host/port[1]/speed 2")
        ≡ codes "only an entry of a list or leaf-list is moved." }
    ensures of_moved_container { edit_under 3 (codes "move /p:host[1] 2")
        ≡ codes "only an entry of a list or leaf-list is moved." }
    ensures of_moved_item { edit_under 3 (codes "move /p:host/tag[1] 2") ≡ [] }
{}

/// Lines that spell no edit (E1).
pub fn spellings()
    ensures other_verb { said_of_line (codes "add /p:host {}")
        ≡ codes "no edit is called \"add\": write create, replace, remove or move." }
    ensures near_verb { said_of_line (codes "creat /p:host {}")
        ≡ codes "no edit is called \"creat\"; near it: create." }
    ensures tab { said_of_line (codes "replace" ++ (9 ∷ codes "/p:host/name 1"))
        ≡ codes "words are parted by blanks; a tab stands behind replace." }
    ensures tab_behind_other { said_of_line (codes "add" ++ (9 ∷ codes " /p:host {}"))
        ≡ codes "no edit is called \"add" ++ (9 ∷ codes "\": write create, replace, remove or move.") }
    ensures no_verb { said_of_line (codes " remove /p:host")
        ≡ codes "a line begins with create, replace, remove or move." }
    ensures no_path { said_of_line (codes "remove") ≡ codes "a path begins with /." }
    ensures no_slash { said_of_line (codes "remove p:host") ≡ codes "a path begins with /." }
    ensures no_name { said_of_line (codes "remove /p:host/")
        ≡ codes "a name stands behind each / of a path." }
    ensures no_quotes { said_of_line (codes "remove /p:host/port[id=1]/speed")
        ≡ codes "\"port[id=1]\" is no step of a path: a key's text stands in quotes, as in [id='..']." }
    ensures module_of_key { said_of_line (codes "remove /p:host/port[p:id='1'][p:at='2']/speed")
        ≡ codes "\"port[p:id='1'][p:at='2']\" is no step of a path: in a predicate the name stands without its module: [id='1']." }
    ensures bare_key_of_module { said_of_line (codes "remove /p:host/port[p:id=1]")
        ≡ codes "\"port[p:id=1]\" is no step of a path: a step is a name, and behind it perhaps [1], or [name='..'] for each key." }
    ensures restconf { said_of_line (codes "remove /p:host/port=1/speed")
        ≡ codes "\"port=1\" is no step of a path: write port[KEY='1']." }
    ensures restconf_keys { said_of_line (codes "remove /p:host/port=1,2")
        ≡ codes "\"port=1,2\" is no step of a path: a step is a name, and behind it perhaps [1], or [name='..'] for each key." }
    ensures zero { said_of_line (codes "remove /p:host/port[0]")
        ≡ codes "\"port[0]\" is no step of a path: positions count from 1." }
    ensures no_step { said_of_line (codes "remove /p:host/port[]")
        ≡ codes "\"port[]\" is no step of a path: a step is a name, and behind it perhaps [1], or [name='..'] for each key." }
    ensures no_value { said_of_line (codes "create /p:host")
        ≡ codes "create has a value behind its path." }
    ensures value { said_of_line (codes "remove /p:host {}")
        ≡ codes "remove has no value behind its path." }
    ensures no_text { said_of_line (codes "remove /" ++ (255 ∷ []))
        ≡ codes "the line isn't UTF-8." }
    ensures right { said_of_line (codes "create /p:host {}") ≡ [] }
    ensures moved_nowhere { said_of_line (codes "move /p:host/tag[1]")
        ≡ codes "move has a position behind its path." }
    ensures moved_to_zero { said_of_line (codes "move /p:host/tag[1] 0")
        ≡ codes "move has one position behind its path, as in move PATH 2." }
    ensures moved_to_two { said_of_line (codes "move /p:host/tag[1] 2 3")
        ≡ codes "move has one position behind its path, as in move PATH 2." }
    ensures moved { said_of_line (codes "move /p:host/tag[1] 2 ") ≡ [] }
{}

/// Edits whose values are no JSON (E9) or don't fit (E10), and refusals of which nothing is said.
pub fn parts()
    ensures near { edit_under 10 (codes "create /p:host/port {\"id\":1,\"sped\":1}")
        ≡ codes "nothing called \"sped\" may stand here; near it: speed." }
    ensures below { edit_under 10 (codes "replace /p:host {\"port\":[{\"id\":1},{\"p:id\":2}]}")
        ≡ codes "here \"p:id\" is written id." }
    ensures no_object { edit_under 10 (codes "create /p:host []")
        ≡ codes "an array stands where an object is due." }
    ensures no_entry { edit_under 10 (codes "create /p:host/port 7")
        ≡ codes "a number stands where an object is due." }
    ensures entries { edit_under 10 (codes "create /p:host/port [{\"id\":1}]")
        ≡ codes "an array stands where an entry is due: write the object alone." }
    ensures items { edit_under 10 (codes "replace /p:host/tag[1] [1]")
        ≡ codes "an array stands where an item's value is due: write the value alone." }
    ensures no_item { edit_under 10 (codes "replace /p:host/tag[1] {}")
        ≡ codes "an object stands where an item's value is due." }
    ensures no_array { edit_under 10 (codes "create /p:host {\"tag\":\"a\"}")
        ≡ codes "a text stands where an array is due." }
    ensures fraction { edit_under 10 (codes "create /p:host/port {\"id\":1.5}")
        ≡ codes "a number with a point or an exponent, or beyond 64 bits, isn't a value of uint8: it takes an integer without quotes in 0..255." }
    ensures no_text { edit_under 9 (codes "create /p:host/name eth0")
        ≡ codes "eth0 isn't JSON; a text stands in double quotes." }
    ensures no_json { edit_under 9 (codes "create /p:host/name {") ≡ codes "{ isn't JSON." }
    ensures is_read { edit_under 11 (codes "create /p:host/name \"a\"") ≡ [] }
    ensures moved { edit_under 10 (codes "move /p:host/tag[1] 2") ≡ [] }
    ensures no_value { edit_under 9 (codes "move /p:host/tag[1] 2") ≡ [] }
{}

/// Edits that are refused by what is stored, or isn't (E4 to E8).
pub fn stored()
    ensures no_container { edit_now (codes "create /p:host/clock/zone \"UTC\"")
        ≡ codes "clock isn't stored in /p:host; this makes it: create /p:host/clock {}" }
    ensures nothing_at_the_top { edit_on (codes "{}") (codes "replace /p:host/name \"b\"")
        ≡ codes "p:host isn't stored at the top; this makes it: create /p:host {}" }
    ensures no_entry { edit_now (codes "create /p:host/port[id='7']/speed 1")
        ≡ codes "port[id='7'] isn't stored in /p:host; this makes it: create /p:host/port {\"id\":7}" }
    ensures near_entry { edit_now (codes "create /p:host/user[name='ana']/role \"x\"")
        ≡ codes "user[name='ana'] isn't stored in /p:host; near it: \"anna\"; this makes it: create /p:host/user {\"name\":\"ana\"}" }
    ensures no_key { edit_now (codes "create /p:host/port[id='07']/speed 1")
        ≡ codes "port[id='07'] isn't stored in /p:host." }
    ensures past_the_end { edit_now (codes "remove /p:host/tag[3]")
        ≡ codes "/p:host/tag has 2, and position 3 is asked for." }
    ensures moved_past_the_end { edit_now (codes "move /p:host/tag[1] 9")
        ≡ codes "/p:host/tag has 2, and position 9 is asked for." }
    ensures several { edit_now (codes "remove /p:host/port[id='2']")
        ≡ codes "more than one entry of /p:host/port has these keys: write port with a position, as in [1]." }
    ensures removed { edit_now (codes "remove /p:host/user[name='Anna']")
        ≡ codes "user[name='Anna'] isn't stored in /p:host; near it: \"anna\"." }
    ensures replaced { edit_now (codes "replace /p:host/user[name=\"anna\"]/role \"x\"")
        ≡ codes "role isn't stored in /p:host/user[name='anna']; write create in place of replace." }
    ensures replaced_entry { edit_now (codes "replace /p:host/port[id='9'] {\"id\":9}")
        ≡ codes "port[id='9'] isn't stored in /p:host; write create in place of replace, and port without a predicate." }
    ensures created { edit_now (codes "create /p:host/name \"b\"") ≡ codes "/p:host/name is \"a\"." }
    ensures created_container { edit_now (codes "create /p:host {}")
        ≡ codes "/p:host is stored: create what is to stand in it, or replace it." }
    ensures changed { edit_now (codes "remove /p:host/name")
        ≡ codes "a line further down changes that: write this one behind it." }
{}
