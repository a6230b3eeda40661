//! The text of a setup, from which a store knows the setup that it was made for.
ghost use Rattle.std.specs.Prelude.{◌≡◌, ◌++◌, ◌↔◌, flat_map, IfOk, OnOk, IsTrue};
ghost use Rattle.std.specs.String.{string_bytes};
ghost use Rattle.office_mail.specs.Setup.{IsSetup};
ghost use Rattle.office_mail_setup.specs.Setup.{role_word};
ghost use Rattle.office_store_tables.specs.SetupText.{spaced, sender_lines, setup_text};

use deb_control::Text;
use office_mail::{Role, Sender, Setup};
use std::alloc::{AllocError, Global};

/// The spelling of a role.
fn role_word(role: Role) -> &'static str
    ensures { result.now ≡ role_word role }
{
    match role {
        Role::Upload => "upload",
        Role::Build => "build",
        Role::Bugs => "bugs",
        Role::Release => "release",
        Role::Runs => "runs",
    }
}

fn push_archs(text: &mut String, archs: &[Text]) -> Result<(), AllocError>
    ensures { OnOk result (string_bytes text.new ≡ string_bytes text.old ++ flat_map spaced archs.now) }
{
    for arch in archs {
        push_arch(text, arch.as_str())?;
    }
    Ok(())
}

fn push_arch(text: &mut String, arch: &str) -> Result<(), AllocError>
    ensures { OnOk result (string_bytes text.new ≡ string_bytes text.old ++ spaced arch.now) }
{
    text.push_str(" ")?;
    text.push_str(arch)
}

#[tactic(auto, unfolding(crate::specs::SetupText::sender_lines))]
fn push_sender(text: &mut String, sender: &Sender) -> Result<(), AllocError>
    ensures { OnOk result (string_bytes text.new ≡ string_bytes text.old ++ sender_lines sender.now) }
{
    text.push_str("\nSender: ")?;
    text.push_str(sender.name.as_str())?;
    text.push_str("\nRole: ")?;
    text.push_str(role_word(sender.role))?;
    text.push_str("\n")
}

fn push_senders(text: &mut String, senders: &[Sender]) -> Result<(), AllocError>
    ensures { OnOk result (string_bytes text.new ≡ string_bytes text.old ++ flat_map sender_lines senders.now) }
{
    for sender in senders {
        push_sender(text, sender)?;
    }
    Ok(())
}

/// The text of a setup: a line with its architectures, and a paragraph for each sender. `Setup::parse` reads the setup
/// back.
#[tactic(auto, unfolding(crate::specs::SetupText::setup_text))]
pub fn setup_text(alloc: Global, setup: &Setup) -> Result<String, AllocError>
    ensures text { IfOk result (λ text. string_bytes text ≡ setup_text setup.now) }
    ensures valid { IsSetup setup.now }
{
    let archs = setup.archs();
    let mut text = String::new(alloc);
    text.push_str("Architectures:")?;
    push_archs(&mut text, archs.as_slice())?;
    text.push_str("\n")?;
    push_senders(&mut text, setup.senders())?;
    Ok(text)
}

/// Whether two texts are the same.
fn same_text(first: &str, second: &str) -> bool
    ensures { IsTrue result ↔ (first.now ≡ second.now) }
{
    first.as_bytes() == second.as_bytes()
}

/// Whether two setups have the same architectures and senders, by names, roles and order.
pub fn same_setup(alloc: Global, first: &Setup, second: &Setup) -> Result<bool, AllocError>
    ensures { IfOk result (λ same. IsTrue same ↔ (first.now ≡ second.now)) }
{
    let ours = setup_text(alloc, first)?;
    let theirs = setup_text(alloc, second)?;
    Ok(same_text(ours.as_str(), theirs.as_str()))
}
