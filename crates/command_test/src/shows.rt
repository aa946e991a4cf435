// What a line says, written out so that a table can hold it. It is bytes, which need not be text, so no Display writes it.
use command::mark::Mark;
use command::said::{
    Action, Address, Addresses, Base, Chooser, Command, FileName, Said, Sought, Substitution,
};
use reading::line::read_command;
use reading::setting::Setting;
use std::alloc::AllocGlobal;
use std::process::Abort;
use std::test::*;

pub(crate) fn shows(
    rt: &(impl Abort + AllocGlobal),
    rows: &[(&[u8], &[u8])],
    setting: Setting,
) -> Result<(), Fail> {
    for (case, row) in rows.iter().enumerate() {
        let (line, wanted) = *row;
        let read = read_command(line, setting);
        assert_eq!(rt; (case, read.err()), (case, None));
        let mut text = Vec::new(rt.alloc());
        show_said(&mut text, read?)?;
        assert_eq!(rt; (case, text.as_slice()), (case, wanted));
    }
    Ok(())
}

fn show_said(text: &mut Vec<u8>, said: Said<'_>) -> Result<(), Fail> {
    match said.addresses {
        Addresses::NoAddress => {}
        Addresses::OneAddress(address) => show_address(text, address)?,
        Addresses::TwoAddresses(first, second) => {
            show_address(text, first)?;
            text.push(b',')?;
            show_address(text, second)?;
        }
    }
    text.push(b':')?;
    show_command(text, said.command)
}

fn show_address(text: &mut Vec<u8>, address: Address<'_>) -> Result<(), Fail> {
    match address.base {
        Base::AtCurrent => text.push(b'.')?,
        Base::AtLast => text.push(b'$')?,
        Base::AtNumber(number) => show_number(text, number as u32)?,
        Base::AtMark(mark) => {
            text.push(b'\'')?;
            text.push(letter(mark))?;
        }
        Base::AtMatch(part) => {
            text.push(b'/')?;
            text.extend_from_slice(part)?;
            text.push(b'/')?;
        }
    }
    if address.ahead > 0 {
        text.push(b'+')?;
        show_number(text, address.ahead)?;
    }
    if address.back > 0 {
        text.push(b'-')?;
        show_number(text, address.back)?;
    }
    Ok(())
}

fn letter(mark: Mark) -> u8 {
    b'a' + mark.bit()
}

fn show_number(text: &mut Vec<u8>, number: u32) -> Result<(), Fail> {
    let digits = format!(in *text.allocator(); "{number}")?;
    text.extend_from_slice(digits.as_bytes())?;
    Ok(())
}

fn show_command(text: &mut Vec<u8>, command: Command<'_>) -> Result<(), Fail> {
    match command {
        Command::Act(action) => show_action(text, action)?,
        Command::AppendText => text.extend_from_slice(b"append")?,
        Command::EditFile(name) => show_name(text, b"edit", name)?,
        Command::QuitSession => text.extend_from_slice(b"quit")?,
        Command::UndoChange => text.extend_from_slice(b"undo")?,
        Command::Global(Chooser::Matching(sought), list) => show_global(
            text,
            b"matching ",
            sought,
            list,
        )?,
        Command::Global(Chooser::Lacking(sought), list) => show_global(
            text,
            b"lacking ",
            sought,
            list,
        )?,
    }
    Ok(())
}

fn show_action(text: &mut Vec<u8>, action: Action<'_>) -> Result<(), Fail> {
    match action {
        Action::DeleteLines => text.extend_from_slice(b"delete")?,
        Action::MarkLine(mark) => {
            text.extend_from_slice(b"mark ")?;
            text.push(letter(mark))?;
        }
        Action::MoveLines(destination) => {
            text.extend_from_slice(b"move ")?;
            show_address(text, destination)?;
        }
        Action::PrintLines => text.extend_from_slice(b"print")?,
        Action::PrintNext => text.extend_from_slice(b"next")?,
        Action::PrintNumber => text.extend_from_slice(b"number")?,
        Action::Substitute(substitution) => show_substitution(text, substitution)?,
        Action::WriteFile(name) => show_name(text, b"write", name)?,
    }
    Ok(())
}

fn show_substitution(text: &mut Vec<u8>, substitution: Substitution<'_>) -> Result<(), Fail> {
    text.extend_from_slice(b"substitute ")?;
    show_sought(text, substitution.sought)?;
    show_bytes(text, substitution.replacement)?;
    if substitution.all {
        text.push(b'g')?;
    }
    if substitution.print {
        text.push(b'p')?;
    }
    Ok(())
}

fn show_global(
    text: &mut Vec<u8>,
    verb: &[u8],
    sought: Sought<'_>,
    list: &[u8],
) -> Result<(), Fail> {
    text.extend_from_slice(verb)?;
    show_sought(text, sought)?;
    show_bytes(text, list)
}

fn show_sought(text: &mut Vec<u8>, sought: Sought<'_>) -> Result<(), Fail> {
    show_bytes(text, &[sought.delimiter])?;
    show_bytes(text, sought.part)
}

fn show_name(text: &mut Vec<u8>, verb: &[u8], name: FileName<'_>) -> Result<(), Fail> {
    text.extend_from_slice(verb)?;
    text.push(b' ')?;
    match name {
        FileName::Remembered => text.extend_from_slice(b"remembered")?,
        FileName::Given(bytes) => show_bytes(text, bytes)?,
    }
    Ok(())
}

fn show_bytes(text: &mut Vec<u8>, bytes: &[u8]) -> Result<(), Fail> {
    text.push(b'[')?;
    text.extend_from_slice(bytes)?;
    text.push(b']')?;
    Ok(())
}
