//! A law of what is said of lines.

ghost use Rattle.std.specs.Prelude.{◌≡◌, ◌≢◌, [], None, Some, false, true};
ghost use Rattle.std.specs.Str.{is_utf8};
ghost use Rattle.yspec.specs.text.Text.{Text};
ghost use Rattle.yspec.specs.edit.EditText.{Edit, edit_of, has_line_feed};
ghost use Rattle.ysay_edit.specs.Spelling.{said_of_line};

/// Of each line that spells no edit something is said, and of each that spells one nothing. In a line no line feed stands.
pub fn spelled_lines()
    ensures no_edit { (line : Text) → has_line_feed line ≡ false → edit_of line ≡ None
        → said_of_line line ≢ [] }
    ensures an_edit { (line : Text) (e : Edit) → has_line_feed line ≡ false → is_utf8 line ≡ true
        → edit_of line ≡ Some e → said_of_line line ≡ [] }
{}
