//! Printing functions and programs.

ghost use Rattle.std.specs.Prelude.{◌≡◌, ℕ, List, map};
ghost use Rattle.std.specs.Option.{option_map};
ghost use Rattle.tw_io.specs.Devices.{Wrote};
ghost use Rattle.tw_syntax.specs.Names.{name_tree};
ghost use Rattle.tw_syntax.specs.Programs.{param_tree, fun_tree, alias_tree, decl_tree, program_tree};
ghost use Rattle.tw_parse.specs.Sources.{IsSource};
ghost use Rattle.tw_print.specs.Progress.{Goes};
ghost use Rattle.tw_print.specs.Programs.{param_print, more_params_print, params_print, fun_bound_print, head_print, return_print, alias_print, fun_print, decl_print, decls_print, program_print};
ghost use Rattle.tw_print.specs.ReadBack.{ReadsBack};

use crate::progress::{Progress, text};
use crate::statements::print_stmts;
use crate::types::print_type;
use tw_io::{Sink, WriteFault};
use tw_syntax::{Alias, Decl, Fun, Name, Param, Program};

fn print_param<K: Sink>(sink: &mut K, progress: Progress, param: &Param) -> Progress
    ensures { Goes K.taken K.faults sink.old sink.new progress result (param_print (param_tree param.now)) }
{
    let progress = text(sink, progress, param.name.text);
    let progress = text(sink, progress, ": ");
    print_type(sink, progress, param.ty)
}

fn print_more_params<K: Sink>(sink: &mut K, progress: Progress, params: &[Param]) -> Progress
    ensures { Goes K.taken K.faults sink.old sink.new progress result (more_params_print (map param_tree params.now)) }
{
    let mut progress = progress;
    for param in params {
        progress = text(sink, progress, ", ");
        progress = print_param(sink, progress, param);
    }
    progress
}

fn print_params<K: Sink>(sink: &mut K, progress: Progress, params: &[Param]) -> Progress
    ensures { Goes K.taken K.faults sink.old sink.new progress result (params_print (map param_tree params.now)) }
{
    match params {
        [] => progress,
        [first, rest @ ..] => {
            let progress = print_param(sink, progress, first);
            print_more_params(sink, progress, rest)
        }
    }
}

fn print_fun_bound<K: Sink>(sink: &mut K, progress: Progress, bound: &Option<Name>) -> Progress
    ensures { Goes K.taken K.faults sink.old sink.new progress result (fun_bound_print (option_map name_tree bound.now)) }
{
    match bound {
        None => progress,
        Some(name) => {
            let progress = text(sink, progress, "[");
            let progress = text(sink, progress, name.text);
            text(sink, progress, "]")
        }
    }
}

fn print_head<K: Sink>(sink: &mut K, progress: Progress, fun: &Fun) -> Progress
    ensures { Goes K.taken K.faults sink.old sink.new progress result (head_print (fun_tree fun.now)) }
{
    let progress = text(sink, progress, "fun ");
    let progress = text(sink, progress, fun.name.text);
    let progress = print_fun_bound(sink, progress, &fun.bound);
    let progress = text(sink, progress, "(");
    let progress = print_params(sink, progress, fun.params);
    let progress = text(sink, progress, ") -> ");
    let progress = print_type(sink, progress, fun.result);
    text(sink, progress, " {\n")
}

fn print_return<K: Sink>(sink: &mut K, progress: Progress, returned: &Name) -> Progress
    ensures { Goes K.taken K.faults sink.old sink.new progress result (return_print (name_tree returned.now)) }
{
    let progress = text(sink, progress, "  return ");
    let progress = text(sink, progress, returned.text);
    text(sink, progress, ";\n}\n")
}

fn print_fun<K: Sink>(sink: &mut K, progress: Progress, fun: &Fun) -> Progress
    ensures { Goes K.taken K.faults sink.old sink.new progress result (fun_print (fun_tree fun.now)) }
{
    let progress = print_head(sink, progress, fun);
    let progress = print_stmts(sink, progress, 1, fun.body);
    print_return(sink, progress, &fun.returned)
}

fn print_alias<K: Sink>(sink: &mut K, progress: Progress, alias: &Alias) -> Progress
    ensures { Goes K.taken K.faults sink.old sink.new progress result (alias_print (alias_tree alias.now)) }
{
    let progress = text(sink, progress, "type ");
    let progress = text(sink, progress, alias.name.text);
    let progress = text(sink, progress, " = ");
    let progress = print_type(sink, progress, alias.body);
    text(sink, progress, ";\n")
}

fn print_decl<K: Sink>(sink: &mut K, progress: Progress, decl: &Decl) -> Progress
    ensures { Goes K.taken K.faults sink.old sink.new progress result (decl_print (decl_tree decl.now)) }
{
    match decl {
        Decl::Alias(alias) => print_alias(sink, progress, alias),
        Decl::Fun(fun) => print_fun(sink, progress, fun),
    }
}

fn print_decls<K: Sink>(sink: &mut K, progress: Progress, decls: &[Decl]) -> Progress
    ensures { Goes K.taken K.faults sink.old sink.new progress result (decls_print (map decl_tree decls.now)) }
{
    let mut progress = progress;
    for decl in decls {
        progress = print_decl(sink, progress, decl);
    }
    progress
}

/// Prints a program. Does not allocate. A fault: the sink took a prefix of the text.
/// The printed form of a source's program is parsed as the same program, but for places.
pub fn print_program<K: Sink>(program: &Program, sink: &mut K) -> Result<(), WriteFault>
    ensures wrote { Wrote K.taken K.faults sink.old sink.new result (program_print (program_tree program.now)) }
    ensures read_back { (source : List ℕ) → IsSource source (program_tree program.now) → ReadsBack (program_tree program.now) }
{
    match print_decls(sink, Progress::Going, program.decls) {
        Progress::Going => Ok(()),
        Progress::Broken => Err(WriteFault),
    }
}
