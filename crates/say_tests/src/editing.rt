//! What is said of each refused edit, and of each line that spells none.

use crate::modules::{LINES, schema_of};
use crate::rows::all_hold;
use std::alloc::Global;
use yinst_path::{Edit, EditCode, EditFault};
use yinst_tree::{Tree, read};
use ysay_edit::{said_of_edit, said_of_line};
use yschema_model::Schema;

// `LINE => SENTENCE`, with no sentence where nothing is said; each line spells an edit, which is refused with this code.
fn is_said(alloc: Global, schema: &Schema, now: &Tree, code: EditCode, row: &str) -> Option<bool> {
    let (line, sentence) = row.split_once(" => ")?;
    let edit = Edit::parse(alloc, line).ok()??;
    let said = said_of_edit(alloc, schema, now, &edit, code).ok()?;
    Some(said.as_str() == sentence)
}

// The same of rows, where a document stands now.
fn are_said_on(alloc: Global, code: EditCode, document: &str, rows: &str) -> Option<bool> {
    let schema = schema_of(alloc, &[LINES])?;
    let now = read(alloc, &schema, document.as_bytes()).ok()?;
    for row in rows.lines() {
        if !is_said(alloc, &schema, &now, code, row)? {
            return Some(false);
        }
    }
    Some(true)
}

fn are_said(alloc: Global, code: EditCode, rows: &str) -> Option<bool> {
    are_said_on(alloc, code, "{}", rows)
}

// The same of a line that spells no edit.
fn is_said_of_line(alloc: Global, row: &str) -> Option<bool> {
    let (line, sentence) = row.split_once(" => ")?;
    match Edit::parse(alloc, line) {
        Err(EditFault::Refused { .. }) => {}
        _ => return None,
    }
    let said = said_of_line(alloc, line.as_bytes()).ok()?;
    Some(said.as_str() == sentence)
}

const PREDICATES: &str =
    r#"remove /net:link/state => net:link is a list: write net:link[id='..'] or net:link[1].
replace /net:link {} => net:link is a list: write net:link[id='..'] or net:link[1].
remove /net:link[name='x'] => net:link is a list: write net:link[id='..'] or net:link[1].
remove /net:link[id='1'][id='2'] => net:link is a list: write net:link[id='..'] or net:link[1].
remove /net:route[prefix='x'] => net:route is a list: write net:route[prefix='..'][metric='..'] or net:route[1].
remove /net:note => net:note is a list without keys: write net:note[1].
remove /net:note[text='x'] => net:note is a list without keys: write net:note[1].
remove /net:host/server => server is a leaf-list: write server[1].
remove /net:host/server[server='x'] => server is a leaf-list: write server[1].
remove /net:host[1] => net:host is a container: no predicate stands behind it.
create /net:host[1]/name "x" => net:host is a container: no predicate stands behind it.
remove /net:host/name[1] => name is a leaf: no predicate stands behind it.
create /net:host/name[name='x'] "x" => name is a leaf: no predicate stands behind it.
create /net:link[id='1'] {} => create adds the entry last: write net:link without a predicate.
create /net:note[1] {} => create adds the entry last: write net:note without a predicate.
create /net:host/server[1] "x" => create adds the item last: write server without a predicate.
create /net:link/state[1] {} => net:link is a list: write net:link[id='..'] or net:link[1].
remove /net:link[1]/state[1]/up => state is a container: no predicate stands behind it.
remove /net:link[id='1']/state/up => 
create /net:link {} => 
create /net:host/server "x" => 
move /net:link 2 => net:link is a list: write net:link[id='..'] or net:link[1].
move /net:link[name='x'] 2 => net:link is a list: write net:link[id='..'] or net:link[1].
move /net:note 2 => net:note is a list without keys: write net:note[1].
move /net:host/server 2 => server is a leaf-list: write server[1].
move /net:host[1]/server[1] 2 => net:host is a container: no predicate stands behind it.
move /net:host 1 => only an entry of a list or leaf-list is moved.
move /net:host[1] 1 => only an entry of a list or leaf-list is moved.
move /net:host/name 2 => only an entry of a list or leaf-list is moved.
move /net:link[1]/mtu 2 => only an entry of a list or leaf-list is moved.
move /net:link/state 2 => only an entry of a list or leaf-list is moved.
move /net:link[9]/state/up 2 => only an entry of a list or leaf-list is moved.
move /net:link[id='1'] 2 => 
move /net:host/server[2] 1 => 
"#;

#[test]
fn predicates_explained(rt: HostRuntime) {
    assert!(rt; are_said(rt.alloc(), EditCode::E3, PREDICATES) == Some(true));
}

const PATHS: &str =
    r#"remove /net:hots => nothing called "net:hots" may stand here; near it: net:host.
remove /host => here "host" is written net:host.
remove /net:link[1]/state/how/rate => how is a choice: leave it out of the path.
remove /net:link[1]/state/net:how => net:how is a choice: leave it out of the path.
remove /net:link[1]/state/quick/rate => quick is a case: leave it out of the path.
remove /net:link[1]/state/net:rate => here "net:rate" is written rate.
remove /net:link[1]/state/slow/slow => nothing called "slow" may stand here.
remove /net:link[1]/how => nothing called "how" may stand here.
remove /net:link[1]/state/rate => 
"#;

#[test]
fn paths_explained(rt: HostRuntime) {
    assert!(rt; are_said(rt.alloc(), EditCode::E2, PATHS) == Some(true));
}

const TEXTS: &str =
    r#"create /net:host/name eth0 => eth0 isn't JSON; a text stands in double quotes.
replace /net:host/name 'eth 0' => 'eth 0' isn't JSON; a text stands in double quotes.
replace /net:host/name 0x1 => 0x1 isn't JSON; a text stands in double quotes.
create /net:host {"name":} => {"name":} isn't JSON.
create /net:host [ => [ isn't JSON.
create /net:host/name "a => "a isn't JSON.
create /net:host/name xxxxxxxxxxxxxxxxxxxxxxxxxxxxxxxxxxxxxxxxxxxxxxxxxxxxxxxxxxxxxxxxxxxxxxxxxxxxxxxxxxxxxxxxxxxxxxxxxxxxx => xxxxxxxxxxxxxxxxxxxxxxxxxxxxxxxxxxxxxxxxxxxxxxxxxxxxxxxxxxxxxxxxxxxxxxxxxxxxxxxxxxxxxxxxxxxxxxxxxxxx .. isn't JSON; a text stands in double quotes.
remove /net:host/name => 
move /net:host/server[1] 2 => 
"#;

#[test]
fn texts_explained(rt: HostRuntime) {
    assert!(rt; are_said(rt.alloc(), EditCode::E9, TEXTS) == Some(true));
}

const VALUES: &str =
    r#"create /net:link [{"id":1}] => an array stands where an entry is due: write the object alone.
replace /net:link[1] [] => an array stands where an entry is due: write the object alone.
create /net:host/server ["a"] => an array stands where an item's value is due: write the value alone.
replace /net:host/server[1] ["a"] => an array stands where an item's value is due: write the value alone.
create /net:link 7 => a number stands where an object is due.
create /net:host/server {} => an object stands where an item's value is due.
create /net:host [] => an array stands where an object is due.
create /net:host/name ["a"] => an array stands where a leaf's value is due.
create /net:host {"server":"a"} => a text stands where an array is due.
create /net:link {"id":1,"state":[]} => an array stands where an object is due.
move /net:link[1] 2 => 
"#;

#[test]
fn values_explained(rt: HostRuntime) {
    assert!(rt; are_said(rt.alloc(), EditCode::E10, VALUES) == Some(true));
}

const STANDING: &str =
    r#"{"net:host":{"name":"a","server":["x","y"]},"net:link":[{"id":"eth0","mtu":1500},{"id":"eth1","state":{"up":true}},{"id":"e1"},{"id":"e1"}],"net:route":[{"prefix":"p","metric":1}]}"#;

const STORED: &str =
    r#"replace /net:link[id='eth0']/state/up false => state isn't stored in /net:link[id='eth0']; this makes it: create /net:link[id='eth0']/state {}
replace /net:link[id='eth9']/mtu 1 => net:link[id='eth9'] isn't stored at the top; near it: "eth0"; this makes it: create /net:link {"id":"eth9"}
replace /net:link[id='']/mtu 1 => net:link[id=''] isn't stored at the top; this makes it: create /net:link {"id":""}
replace /net:link[id="it's"]/mtu 1 => net:link[id="it's"] isn't stored at the top; this makes it: create /net:link {"id":"it's"}
create /net:link[id='true']/mtu 1 => net:link[id='true'] isn't stored at the top; this makes it: create /net:link {"id":"true"}
replace /net:route[prefix='p'][metric='2']/metric 2 => net:route[prefix='p'][metric='2'] isn't stored at the top; this makes it: create /net:route {"prefix":"p","metric":2}
replace /net:route[metric='2'][prefix='7']/metric 2 => net:route[metric='2'][prefix='7'] isn't stored at the top.
replace /net:route[prefix='p'][metric='02']/metric 2 => net:route[prefix='p'][metric='02'] isn't stored at the top.
replace /net:route[prefix='p'][metric='300']/metric 2 => net:route[prefix='p'][metric='300'] isn't stored at the top.
replace /net:link[7]/mtu 1 => /net:link has 4, and position 7 is asked for.
remove /net:host/server[3] => /net:host/server has 2, and position 3 is asked for.
remove /net:host/server[99999999999] => /net:host/server has 2, and position 4294967295 is asked for.
move /net:host/server[1] 3 => /net:host/server has 2, and position 3 is asked for.
move /net:host/server[4] 1 => /net:host/server has 2, and position 4 is asked for.
remove /net:note[1] => /net:note has 0, and position 1 is asked for.
remove /net:link[id='e1'] => more than one entry of /net:link has these keys: write net:link with a position, as in [1].
replace /net:link[id='e1']/mtu 1 => more than one entry of /net:link has these keys: write net:link with a position, as in [1].
remove /net:link[id='eth0']/state => state isn't stored in /net:link[id='eth0'].
remove /net:link[id='ETH0'] => net:link[id='ETH0'] isn't stored at the top.
move /net:link[id='eth2'] 1 => net:link[id='eth2'] isn't stored at the top; near it: "eth0".
replace /net:link[1]/state {} => state isn't stored in /net:link[1]; write create in place of replace.
replace /net:link[id='w'] {"id":"w"} => net:link[id='w'] isn't stored at the top; write create in place of replace, and net:link without a predicate.
create /net:host/name "b" => /net:host/name is "a".
create /net:link[id='eth0']/mtu 9000 => /net:link[id='eth0']/mtu is 1500.
create /net:link[2]/state/up false => /net:link[2]/state/up is true.
create /net:host {} => /net:host is stored: create what is to stand in it, or replace it.
create /net:link {"id":"x"} => a line further down changes that: write this one behind it.
create /net:link[1]/state {} => a line further down changes that: write this one behind it.
remove /net:host/name => a line further down changes that: write this one behind it.
move /net:host/server[1] 2 => a line further down changes that: write this one behind it.
"#;

#[test]
fn stored_explained(rt: HostRuntime) {
    assert!(rt; are_said_on(rt.alloc(), EditCode::E4, STANDING, STORED) == Some(true));
}

const SPELLINGS: &str =
    r#"add /net:host {} => no edit is called "add": write create, replace, remove or move.
creat /net:host {} => no edit is called "creat"; near it: create.
Remove /net:host => no edit is called "Remove"; near it: remove.
delete /net:host => no edit is called "delete": write create, replace, remove or move.
 remove /net:host => a line begins with create, replace, remove or move.
/net:host => no edit is called "/net:host": write create, replace, remove or move.
remove/net:host => no edit is called "remove/net:host": write create, replace, remove or move.
remove => a path begins with /.
create net:host {} => a path begins with /.
remove / => a name stands behind each / of a path.
remove /net:host/ => a name stands behind each / of a path.
remove /net:host//name => a name stands behind each / of a path.
remove /net:link[id=eth0]/mtu => "net:link[id=eth0]" is no step of a path: a key's text stands in quotes, as in [id='..'].
remove /net:link[id=eth 0]/mtu => "net:link[id=eth" is no step of a path: a key's text stands in quotes, as in [id='..'].
remove /net:link[net:id='1']/mtu => "net:link[net:id='1']" is no step of a path: in a predicate the name stands without its module: [id='1'].
remove /net:link[net:id=1]/mtu => "net:link[net:id=1]" is no step of a path: a step is a name, and behind it perhaps [1], or [name='..'] for each key.
remove /net:link=1/mtu => "net:link=1" is no step of a path: write net:link[KEY='1'].
remove /net:link=1,2/mtu => "net:link=1,2" is no step of a path: a step is a name, and behind it perhaps [1], or [name='..'] for each key.
remove /net:link[0] => "net:link[0]" is no step of a path: positions count from 1.
remove /net:link[] => "net:link[]" is no step of a path: a step is a name, and behind it perhaps [1], or [name='..'] for each key.
remove /net:link[id='1'/mtu => "net:link[id='1'" is no step of a path: a step is a name, and behind it perhaps [1], or [name='..'] for each key.
remove /net:link[.=5] => "net:link[.=5]" is no step of a path: a step is a name, and behind it perhaps [1], or [name='..'] for each key.
remove /1 => "1" is no step of a path: a step is a name, and behind it perhaps [1], or [name='..'] for each key.
create /net:host => create has a value behind its path.
replace /net:link[id='a b'] => replace has a value behind its path.
remove /net:host {} => remove has no value behind its path.
mov /net:link[1] 2 => no edit is called "mov"; near it: move.
Move /net:link[1] 2 => no edit is called "Move"; near it: move.
remov /net:link[1] => no edit is called "remov"; near it: remove.
move => a path begins with /.
move 2 /net:link[1] => a path begins with /.
move /net:link[0] 2 => "net:link[0]" is no step of a path: positions count from 1.
move /net:link[1] => move has a position behind its path.
move /net:link[1]  => move has a position behind its path.
move /net:link[1] 0 => move has one position behind its path, as in move PATH 2.
move /net:link[1] 02 => move has one position behind its path, as in move PATH 2.
move /net:link[1] -1 => move has one position behind its path, as in move PATH 2.
move /net:link[1] [2] => move has one position behind its path, as in move PATH 2.
move /net:link[1] 2 3 => move has one position behind its path, as in move PATH 2.
move /net:link[1] last => move has one position behind its path, as in move PATH 2.
move /net:link[1] /net:link[2] => move has one position behind its path, as in move PATH 2.
"#;

#[test]
fn spellings_explained(rt: HostRuntime) {
    all_hold(&rt, rt.alloc(), SPELLINGS, is_said_of_line);
}

fn is_said_of_bytes(alloc: Global) -> Option<bool> {
    let said = said_of_line(alloc, b"create /net:host/name \"\xff\"").ok()?;
    Some(said.as_str() == "the line isn't UTF-8.")
}

#[test]
fn bytes_explained(rt: HostRuntime) {
    assert!(rt; is_said_of_bytes(rt.alloc()) == Some(true));
}

const TABS: &str =
    "replace\t/net:host/name\t\"a\" => words are parted by blanks; a tab stands behind replace.
remove\t => words are parted by blanks; a tab stands behind remove.
\tremove /net:host => no edit is called \"\tremove\"; near it: remove.
";

#[test]
fn tabs_explained(rt: HostRuntime) {
    all_hold(&rt, rt.alloc(), TABS, is_said_of_line);
}
