ghost use Rattle.std.specs.Prelude.{◌≡◌, ◌<◌, List, ℕ, ◌%◌};
ghost use Rattle.mpm_procs.specs.Table.{call_of, process_in};
ghost use Rattle.mpm_output.specs.Writing.{WritesAlone, spoken};

use crate::output::{write_bytes, write_kept, write_string, write_tabbed};
use crate::system::System;
use mpm_base::{Pid, Reply, Seg, functions};
use mpm_consoles::{AWAIT_KEY, echoes};
use mpm_file_functions::Extended;
use mpm_output::{error_text, put_bytes};
use mpm_port::{Failed, Sink};
use mpm_render::{Render, Unit};

impl System {
    ghost use Rattle.mpm_file_functions.specs.declared.refusals.Extended.{Extended};
    ghost use Rattle.mpm_system.specs.Whole.{LivesInSystem, Makes};
    ghost use Rattle.mpm_system.specs.Saying.{string_of, said_by, echo_of, MaySpeakByte};
    ghost use Rattle.mpm_system.specs.Residents.{telling_step, text_told};
    ghost use Rattle.mpm_system.specs.FileCalling.{error_told};
    ghost use Rattle.mpm_system.specs.Written.{records_out};

    /// What the call of a process of a segment writes comes out; the string of function 9 stands in memory. Mostly it writes none.
    #[inline(always)]
    pub fn speak<S: Sink>(
        &mut self,
        p: Pid,
        seg: Seg,
        render: &mut Render,
        sink: &mut S,
    ) -> Result<(), Failed>
        requires { LivesInSystem p self.old }
        ensures { Makes S.written S.faults (said_by (call_of self.old.kernel.dispatcher.procs p) (string_of (call_of self.old.kernel.dispatcher.procs p) seg self.old.memory) p self.old) self.new render.old sink.old render.new sink.new result }
    {
        let call = self.kernel.kept_call(p);
        if functions::READ_CONSOLE_BUFFER < call.function {
            return Ok(());
        }
        self.speak_some(p, seg, render, sink)
    }

    /// As `speak`, for a call whose number may be that of a function that writes.
    #[cold]
    #[inline(never)]
    fn speak_some<S: Sink>(
        &mut self,
        p: Pid,
        seg: Seg,
        render: &mut Render,
        sink: &mut S,
    ) -> Result<(), Failed>
        requires { LivesInSystem p self.old }
        ensures { Makes S.written S.faults (said_by (call_of self.old.kernel.dispatcher.procs p) (string_of (call_of self.old.kernel.dispatcher.procs p) seg self.old.memory) p self.old) self.new render.old sink.old render.new sink.new result }
    {
        let call = self.kernel.kept_call(p);
        if call.function == functions::PRINT_STRING {
            let word = call.word;
            let console = self.kernel.living(p).console;
            return write_string(
                &mut self.kernel,
                console,
                &self.memory,
                seg,
                word,
                render,
                sink,
            );
        }
        self.speak_byte(p, render, sink)
    }

    /// What a call of a process other than function 9 writes comes out: a byte, at its console or its printer. Mostly it writes none.
    #[inline(always)]
    fn speak_byte<S: Sink>(
        &mut self,
        p: Pid,
        render: &mut Render,
        sink: &mut S,
    ) -> Result<(), Failed>
        requires { MaySpeakByte p self.old }
        ensures { (string : List ℕ) → Makes S.written S.faults (said_by (call_of self.old.kernel.dispatcher.procs p) string p self.old) self.new render.old sink.old render.new sink.new result }
    {
        let call = self.kernel.kept_call(p);
        if functions::DIRECT_CONSOLE_IO < call.function {
            return Ok(());
        }
        self.speak_low(p, render, sink)
    }

    /// As `speak_byte`, for a call whose number may be that of a function that writes.
    #[inline(never)]
    fn speak_low<S: Sink>(
        &mut self,
        p: Pid,
        render: &mut Render,
        sink: &mut S,
    ) -> Result<(), Failed>
        requires { MaySpeakByte p self.old }
        ensures { (string : List ℕ) → Makes S.written S.faults (said_by (call_of self.old.kernel.dispatcher.procs p) string p self.old) self.new render.old sink.old render.new sink.new result }
    {
        let process = self.kernel.living(p);
        let console = process.console;
        let printer = process.printer;
        let call = self.kernel.kept_call(p);
        let byte = (call.word % 256) as u8;
        match call.function {
            functions::CONSOLE_OUTPUT => write_tabbed(
                &mut self.kernel,
                console,
                byte,
                render,
                sink,
            ),
            functions::RAW_CONSOLE_OUTPUT => write_bytes(
                &mut self.kernel,
                console,
                &[byte],
                render,
                sink,
            ),
            functions::LIST_OUTPUT if 0 < self.kernel.printers() => render.put(
                Unit::Printer { n: printer },
                byte,
                sink,
            ),
            functions::DIRECT_CONSOLE_IO if byte < AWAIT_KEY => write_bytes(
                &mut self.kernel,
                console,
                &[byte],
                render,
                sink,
            ),
            _ => Ok(()),
        }
    }

    /// What the kernel itself wrote to the console of a process in its call comes out: the key that it took, where its function
    /// echoes it. Mostly it doesn't.
    #[inline(always)]
    pub fn put_echo<S: Sink>(&self, p: Pid, render: &mut Render, sink: &mut S) -> Result<(), Failed>
        requires { LivesInSystem p self.now }
        ensures wrote { WritesAlone S.written S.faults render.old sink.old render.new sink.new (spoken (process_in self.now.kernel.dispatcher.procs p).console (echo_of (call_of self.now.kernel.dispatcher.procs p) self.now.kernel)) result }
    {
        let call = self.kernel.kept_call(p);
        if functions::READ_CONSOLE_BUFFER < call.function {
            return Ok(());
        }
        self.put_some_echo(p, render, sink)
    }

    /// As `put_echo`, for a call whose number may be that of a function that echoes.
    #[cold]
    #[inline(never)]
    fn put_some_echo<S: Sink>(
        &self,
        p: Pid,
        render: &mut Render,
        sink: &mut S,
    ) -> Result<(), Failed>
        requires { LivesInSystem p self.now }
        ensures wrote { WritesAlone S.written S.faults render.old sink.old render.new sink.new (spoken (process_in self.now.kernel.dispatcher.procs p).console (echo_of (call_of self.now.kernel.dispatcher.procs p) self.now.kernel)) result }
    {
        if !echoes(self.kernel.kept_call(p).function) {
            return Ok(());
        }
        let console = self.kernel.living(p).console;
        put_bytes(console, self.kernel.echo().written(), render, sink)
    }

    /// The text of the call that a process keeps comes to the console that its parameter names, and its resident goes on.
    #[tactic(auto, unfolding(crate::specs::Residents::telling_step))]
    pub fn tell_text<S: Sink>(
        &mut self,
        p: Pid,
        reply: &mut Reply,
        render: &mut Render,
        sink: &mut S,
    ) -> Result<(), Failed>
        requires { LivesInSystem p self.old }
        ensures { Makes S.written S.faults (telling_step (call_of self.old.kernel.dispatcher.procs p) p self.old) self.new render.old sink.old render.new sink.new result }
    {
        self.put_text(p, render, sink)?;
        reply.answer(0);
        self.take_answer(p, reply);
        Ok(())
    }

    /// The text of the call that a process keeps comes to the console that its parameter names, where that is there.
    fn put_text<S: Sink>(&mut self, p: Pid, render: &mut Render, sink: &mut S) -> Result<(), Failed>
        requires { LivesInSystem p self.old }
        ensures { Makes S.written S.faults (text_told (call_of self.old.kernel.dispatcher.procs p) self.old) self.new render.old sink.old render.new sink.new result }
    {
        let console = self.console_told(p);
        if console < self.kernel.consoles() {
            return write_kept(&mut self.kernel, p, console, render, sink);
        }
        Ok(())
    }

    /// What the call of a resident writes comes out; the string of function 9 is its bytes.
    pub fn speak_kept<S: Sink>(
        &mut self,
        p: Pid,
        render: &mut Render,
        sink: &mut S,
    ) -> Result<(), Failed>
        requires { LivesInSystem p self.old }
        ensures { Makes S.written S.faults (said_by (call_of self.old.kernel.dispatcher.procs p) (call_of self.old.kernel.dispatcher.procs p).bytes p self.old) self.new render.old sink.old render.new sink.new result }
    {
        if self.kernel.kept_call(p).function == functions::PRINT_STRING {
            let console = self.kernel.living(p).console;
            return write_kept(&mut self.kernel, p, console, render, sink);
        }
        self.speak_byte(p, render, sink)
    }

    /// The text of an extended error comes out at its caller's console.
    #[tactic(auto, unfolding(crate::specs::FileCalling::error_told, crate::specs::Whole::speaking))]
    pub fn tell_error<S: Sink>(
        &mut self,
        p: Pid,
        error: Extended,
        render: &mut Render,
        sink: &mut S,
    ) -> Result<(), Failed>
        requires { LivesInSystem p self.old }
        ensures system { self.new ≡ (error_told error p self.old).system }
        ensures wrote { WritesAlone S.written S.faults render.old sink.old render.new sink.new (error_told error p self.old).emitted result }
    {
        let console = self.kernel.living(p).console;
        let text = error_text(error.code, error.drive);
        write_bytes(&mut self.kernel, console, text.as_slice(), render, sink)
    }

    /// The records of completed calls come out, in order: mostly there are none.
    #[inline(always)]
    pub fn write_records<S: Sink>(
        &mut self,
        render: &mut Render,
        sink: &mut S,
    ) -> Result<(), Failed>
        ensures { Makes S.written S.faults (records_out self.old) self.new render.old sink.old render.new sink.new result }
    {
        self.records.write(render, sink)?;
        self.records.clear();
        Ok(())
    }
}
