//! From the contents of modules' files to their schema.

ghost use Rattle.std.specs.Prelude.{◌≡◌, ◌∷◌, [], ◌++◌, ℕ, List, Ok, map, option_map, IfOk, string_bytes};
ghost use Rattle.yspec.specs.Forest.{Forest};
ghost use Rattle.yspec_wide.specs.Compiling.{compiled_in};
ghost use Rattle.ylink_grammar.specs.LanguageView.{language_view};
ghost use Rattle.yspec_session.specs.Session.{configured_by};
ghost use Rattle.yspec_run.specs.Output as spec;
ghost use Rattle.yspec_run.specs.Output.{Outcome, with_compiled, with_modules, with_schema};
ghost use Rattle.yspec.specs.schema.Schema as schema_spec;
ghost use Rattle.yspec.specs.text.Statement.{Statement};
ghost use Rattle.yspec_wide.specs.Texts.{module_in};
ghost use Rattle.ytext.specs.View.{modules_view};
ghost use Rattle.yschema_model.specs.View as schema_view;
ghost use Rattle.ytext.specs.Told.{number_of, told_by};
ghost use Rattle.yspec.specs.Results.{Gives};
ghost use Rattle.ylink_grammar.specs.BreakView.{break_view, code_number};
ghost use Rattle.yspec_run.specs.Hint as hints;
ghost use Rattle.yspec_run.specs.Hint.{language_hint};
ghost use Rattle.yapp_report.specs.Failing.{FailsWith, LeadsTo};

use crate::contents::Taken;
use std::alloc::{AllocError, Global};
use yapp_report::Failure;
use yapp_script::{break_hint, slip_hint};
use ylink_grammar::{BrokenRule, CompileCode, Language};
use yschema::{CompileFault, compile_in};
use yschema_model::Schema;
use ytext::{Module, TextCode, TextFault, parse_in};

/// The statements of the modules of some names, in order, up to the first whose text is refused.
pub(crate) fn parse_modules<'a, 'b>(
    alloc: Global,
    language: &Language,
    names: &[&'a str],
    contents: &'b [Vec<u8>],
) -> Result<Taken<'b, Vec<Module>>, Failure<'a>>
    ensures { (next : Forest Statement → List (List ℕ) → Outcome)
        → LeadsTo (with_modules (language_view language.now) (map (λ n. n.now) names.now)
        (map (λ c. c.items) contents.entry.now) next)
        (λ parsed. next (modules_view parsed.value.items) (map (λ c. c.items) parsed.rest.now))
        result }
{
    let mut modules = Vec::new(alloc);
    let mut rest = contents;
    for name in names {
        match rest.split_first() {
            Some((text, others)) => {
                match parse_module(alloc, language, *name, text) {
                    Ok(module) => modules.push(module)?,
                    Err(failure) => return Err(failure),
                }
                rest = others;
            }
            None => return Ok(Taken {
                value: modules,
                rest,
            }),
        }
    }
    Ok(Taken {
        value: modules,
        rest,
    })
}

/// The statements of a text, read by the version that it states where the language has several.
fn parse_text(alloc: Global, language: &Language, text: &[u8]) -> Result<Module, TextFault>
    ensures { Gives (λ read. modules_view (read ∷ [])) told_by result
        (module_in (language_view language.now) text.now) }
{
    parse_in(alloc, text, language.reads_versions())
}

fn parse_module<'a>(
    alloc: Global,
    language: &Language,
    name: &'a str,
    text: &[u8],
) -> Result<Module, Failure<'a>>
    ensures { (next : Forest Statement → Outcome)
        → LeadsTo (spec.with_module name.entry.now text.now (module_in (language_view language.now) text.now) next)
        (λ parsed. next (modules_view (parsed ∷ []))) result }
{
    match parse_text(alloc, language, text) {
        Ok(module) => Ok(module),
        Err(TextFault::Refused { code, line }) => Err(text_failure(alloc, name, code, line, text)),
        Err(TextFault::Memory) => Err(Failure::Memory),
    }
}

/// The failure of a module whose text is refused in a line.
fn text_failure<'a>(
    alloc: Global,
    name: &'a str,
    code: TextCode,
    line: u32,
    text: &[u8],
) -> Failure<'a>
    ensures { FailsWith result (spec.slipped name.entry.now text.now
        (record { code = number_of code; line = line })) }
{
    match slip_hint(alloc, code.number(), line, text) {
        Ok(hint) => Failure::Text {
            name,
            code,
            line,
            hint,
            jump: None,
        },
        Err(_) => Failure::Memory,
    }
}

/// A schema, and that of its configuration where that alone is looked at.
#[derive(Drop)]
pub(crate) struct Compiled {
    pub schema: Schema,
    pub configured: Option<Schema>,
}

/// The schema in a language of the modules of some names.
fn compile_modules<'a>(
    alloc: Global,
    language: &Language,
    names: &[&'a str],
    contents: &[Vec<u8>],
    modules: &[Module],
) -> Result<Schema, Failure<'a>>
    ensures leads { (next : schema_spec.Schema → Outcome)
        → LeadsTo (with_compiled (language_view language.now) (map (λ n. n.now) names.now) (map (λ c. c.items) contents.now)
        (modules_view modules.now) (compiled_in (language_view language.now) (modules_view modules.now)) next)
        (λ schema. next (schema_view.view schema)) result }
    ensures exact { IfOk result (λ schema. compiled_in (language_view language.now) (modules_view modules.now)
        ≡ Ok (schema_view.view schema)) }
{
    match compile_in(alloc, modules, language) {
        Ok(schema) => Ok(schema),
        Err(CompileFault::Refused { code, module, line }) => {
            let rule = BrokenRule { module, line, code };
            Err(compile_failure(alloc, language, names, contents, modules, rule))
        }
        Err(CompileFault::Memory) => Err(Failure::Memory),
    }
}

/// The failure of a set of modules of which one breaks a rule.
fn compile_failure<'a>(
    alloc: Global,
    language: &Language,
    names: &[&'a str],
    contents: &[Vec<u8>],
    modules: &[Module],
    rule: BrokenRule,
) -> Failure<'a>
    ensures { FailsWith result (spec.broken (language_view language.now) (map (λ n. n.now) names.now)
        (map (λ c. c.items) contents.now) (modules_view modules.now) (break_view rule)) }
{
    match rule_hint(alloc, language, contents, modules, rule) {
        Ok(hint) => Failure::Compile {
            name: names.get(rule.module).copied().unwrap_or(""),
            code: rule.code,
            line: rule.line,
            hint,
            jump: None,
        },
        Err(_) => Failure::Memory,
    }
}

/// What is said below a broken rule: its line, and whether another language reads the modules past it.
fn rule_hint(
    alloc: Global,
    language: &Language,
    contents: &[Vec<u8>],
    modules: &[Module],
    rule: BrokenRule,
) -> Result<String, AllocError>
    ensures { IfOk result (λ hint. string_bytes hint
        ≡ hints.break_hint (map (λ c. c.items) contents.now) (modules_view modules.now) (break_view rule)
        ++ language_hint (hints.is_read_in_rfc (language_view language.now) (modules_view modules.now) (break_view rule))) }
{
    let mut hint = break_hint(alloc, contents, modules, rule)?;
    if is_read_in_rfc(alloc, language, modules, rule)? {
        hint.push_str("  with --profile rfc this is read.\n")?;
    }
    Ok(hint)
}

/// Whether a rule is one that the language decides.
fn is_of_language(code: CompileCode) -> bool
    ensures { result ≡ hints.is_of_language (code_number code) }
{
    matches!(
        code,
        CompileCode::C1 | CompileCode::C3 | CompileCode::C4 | CompileCode::C10
    )
}

/// Whether two rules are the same, in the same line of the same module.
fn is_same(rule: BrokenRule, other: BrokenRule) -> bool
    ensures { result ≡ hints.same_break (break_view rule) (break_view other) }
{
    rule.code.number() == other.code.number()
        && (rule.module == other.module && rule.line == other.line)
}

/// Whether a language tells this rule of modules.
fn is_told_in(
    alloc: Global,
    language: &Language,
    modules: &[Module],
    rule: BrokenRule,
) -> Result<bool, AllocError>
    ensures { IfOk result (λ told. told ≡ hints.is_told (break_view rule)
        (compiled_in (language_view language.now) (modules_view modules.now))) }
{
    match compile_in(alloc, modules, language) {
        Ok(_) => Ok(false),
        Err(CompileFault::Refused { code, module, line }) => {
            Ok(is_same(rule, BrokenRule { module, line, code }))
        }
        Err(CompileFault::Memory) => Err(AllocError),
    }
}

/// Whether the wide language, all features on, doesn't tell what the core tells of modules.
fn is_read_in_rfc(
    alloc: Global,
    language: &Language,
    modules: &[Module],
    rule: BrokenRule,
) -> Result<bool, AllocError>
    ensures { IfOk result (λ is_read. is_read
        ≡ hints.is_read_in_rfc (language_view language.now) (modules_view modules.now) (break_view rule)) }
{
    if !matches!(language, Language::Core) || !is_of_language(rule.code) {
        return Ok(false);
    }
    let wide = Language::rfc_with(Vec::new(alloc));
    Ok(!is_told_in(alloc, &wide, modules, rule)?)
}

/// The schema in a language of the modules of some names, by the contents of their files. Their statements go as soon as it stands.
pub fn compile_contents<'a, 'b>(
    alloc: Global,
    language: &Language,
    names: &[&'a str],
    contents: &'b [Vec<u8>],
) -> Result<Taken<'b, Schema>, Failure<'a>>
    ensures { (next : schema_spec.Schema → List (List ℕ) → Outcome)
        → LeadsTo (with_schema (language_view language.now) (map (λ n. n.now) names.now)
        (map (λ c. c.items) contents.entry.now) next)
        (λ compiled. next (schema_view.view compiled.value) (map (λ c. c.items) compiled.rest.now))
        result }
{
    match parse_modules(alloc, language, names, contents) {
        Ok(parsed) => match compile_modules(alloc, language, names, contents, &parsed.value) {
            Ok(schema) => Ok(Taken {
                value: schema,
                rest: parsed.rest,
            }),
            Err(failure) => Err(failure),
        },
        Err(failure) => Err(failure),
    }
}

/// The schema of the configuration of modules that compile, where that alone is looked at: they are compiled once more for it.
fn configured_of(
    alloc: Global,
    language: &Language,
    modules: &[Module],
    of_configuration: bool,
) -> Result<Option<Schema>, AllocError>
    ensures { IfOk result (λ configured. (schema : schema_spec.Schema)
        → compiled_in (language_view language.now) (modules_view modules.now) ≡ Ok schema
        → option_map schema_view.view configured ≡ configured_by of_configuration schema) }
{
    if !of_configuration {
        return Ok(None);
    }
    match compile_in(alloc, modules, language) {
        Ok(schema) => Ok(Some(schema.configuration(alloc)?)),
        Err(_) => Err(AllocError),
    }
}

/// The schema in a language of the modules of some names, with that of its configuration where that alone is looked at.
fn compile_both<'a>(
    alloc: Global,
    language: &Language,
    names: &[&'a str],
    contents: &[Vec<u8>],
    modules: &[Module],
    of_configuration: bool,
) -> Result<Compiled, Failure<'a>>
    ensures leads { (next : schema_spec.Schema → Outcome)
        → LeadsTo (with_compiled (language_view language.now) (map (λ n. n.now) names.now) (map (λ c. c.items) contents.now)
        (modules_view modules.now) (compiled_in (language_view language.now) (modules_view modules.now)) next)
        (λ compiled. next (schema_view.view compiled.schema)) result }
    ensures configured { IfOk result (λ compiled. option_map schema_view.view compiled.configured
        ≡ configured_by of_configuration (schema_view.view compiled.schema)) }
{
    match compile_modules(alloc, language, names, contents, modules) {
        Ok(schema) => {
            let configured = configured_of(alloc, language, modules, of_configuration)?;
            Ok(Compiled { schema, configured })
        }
        Err(failure) => Err(failure),
    }
}

/// The same by the contents of their files. Their statements go as soon as it stands.
pub(crate) fn compile_opened<'a, 'b>(
    alloc: Global,
    language: &Language,
    names: &[&'a str],
    contents: &'b [Vec<u8>],
    of_configuration: bool,
) -> Result<Taken<'b, Compiled>, Failure<'a>>
    ensures leads { (next : schema_spec.Schema → List (List ℕ) → Outcome)
        → LeadsTo (with_schema (language_view language.now) (map (λ n. n.now) names.now)
        (map (λ c. c.items) contents.entry.now) next)
        (λ compiled. next (schema_view.view compiled.value.schema) (map (λ c. c.items) compiled.rest.now)) result }
    ensures configured { IfOk result (λ compiled. option_map schema_view.view compiled.value.configured
        ≡ configured_by of_configuration (schema_view.view compiled.value.schema)) }
{
    match parse_modules(alloc, language, names, contents) {
        Ok(parsed) => match compile_both(
            alloc,
            language,
            names,
            contents,
            &parsed.value,
            of_configuration,
        ) {
            Ok(compiled) => Ok(Taken {
                value: compiled,
                rest: parsed.rest,
            }),
            Err(failure) => Err(failure),
        },
        Err(failure) => Err(failure),
    }
}
