// The states of x553 as words, and back.
ghost use Rattle.packed.specs.X553.{get_firmware_place, get_prepare_firmware, get_setup_firmware, get_sgmii, get_sgmii_an, words_firmware_place, words_prepare_firmware, words_setup_firmware, words_sgmii, words_sgmii_an};

use crate::packed::Packed;
use crate::read::{after, half, is, word_at};
use crate::tape::{flag, wide, word, zeros};
use activity::Activity;
use answers::{FirmwarePhy, SgmiiSetup};
use kr::modify::KrModify;
use kr::sequence::{KrPlace, Sequence};
use x553::firmware::SetupFirmware;
use x553::prepare::{FirmwarePlace, PrepareFirmware};
use x553::sgmii::Sgmii;
use x553::sgmii_an::SgmiiAn;

impl Packed for FirmwarePlace {
    ghost words = { words_firmware_place };

    ghost read = { get_firmware_place };

    #[tactic(auto, unfolding(crate::specs::X553::words_firmware_place, crate::specs::X553::get_firmware_place, crate::specs::Tape::word_at))]
    fn put(self, tape: &mut [u32; 68], at: usize) -> usize {
        match self {
            FirmwarePlace::Reset => word(tape, at, 1),
            FirmwarePlace::Init => word(tape, at, 2),
            FirmwarePlace::Setup => word(tape, at, 3),
        }
    }

    #[tactic(auto, unfolding(crate::specs::X553::get_firmware_place))]
    fn get(tape: &[u32], at: usize) -> FirmwarePlace {
        let kind = word_at(tape, at, 0);
        if kind == 1 {
            FirmwarePlace::Reset
        } else if kind == 2 {
            FirmwarePlace::Init
        } else {
            FirmwarePlace::Setup
        }
    }
}

impl Packed for PrepareFirmware {
    ghost words = { words_prepare_firmware };

    ghost read = { get_prepare_firmware };

    #[tactic(auto, unfolding(crate::specs::X553::words_prepare_firmware, crate::specs::X553::get_prepare_firmware, crate::specs::Tape::word_at))]
    fn put(self, tape: &mut [u32; 68], at: usize) -> usize {
        match self {
            PrepareFirmware::Info(activity) => {
                let at = word(tape, at, 1);
                let at = activity.put(tape, at);
                zeros(tape, at, 3)
            },
            PrepareFirmware::Then(firmware_place, firmware_phy, activity) => {
                let at = word(tape, at, 2);
                let at = word(tape, at, firmware_phy.id);
                let at = word(tape, at, wide(firmware_phy.speeds));
                let at = firmware_place.put(tape, at);
                activity.put(tape, at)
            },
        }
    }

    #[tactic(auto, unfolding(crate::specs::X553::get_prepare_firmware))]
    fn get(tape: &[u32], at: usize) -> PrepareFirmware {
        let kind = word_at(tape, at, 0);
        if kind == 1 {
            PrepareFirmware::Info(Activity::get(tape, after(tape, at, 1)))
        } else {
            PrepareFirmware::Then(
                FirmwarePlace::get(tape, after(tape, at, 3)),
                FirmwarePhy {
                    id: word_at(tape, at, 1),
                    speeds: half(word_at(tape, at, 2)),
                },
                Activity::get(tape, after(tape, at, 4)),
            )
        }
    }
}

impl Packed for Sgmii {
    ghost words = { words_sgmii };

    ghost read = { get_sgmii };

    #[tactic(auto, unfolding(crate::specs::X553::words_sgmii, crate::specs::X553::get_sgmii, crate::specs::Tape::word_at))]
    fn put(self, tape: &mut [u32; 68], at: usize) -> usize {
        match self {
            Sgmii::Ctrl(kr_modify) => {
                let at = word(tape, at, 1);
                let at = kr_modify.put(tape, at);
                zeros(tape, at, 8)
            },
            Sgmii::Force(x, kr_modify) => {
                let at = word(tape, at, 2);
                let at = word(tape, at, x);
                let at = kr_modify.put(tape, at);
                zeros(tape, at, 7)
            },
            Sgmii::Lane(x, y, kr_modify) => {
                let at = word(tape, at, 3);
                let at = word(tape, at, x);
                let at = word(tape, at, y);
                let at = kr_modify.put(tape, at);
                zeros(tape, at, 6)
            },
            Sgmii::Restart(sgmii_setup, sequence) => {
                let at = word(tape, at, 4);
                let at = word(tape, at, sgmii_setup.link_ctrl);
                let at = word(tape, at, sgmii_setup.sgmii);
                let at = word(tape, at, sgmii_setup.flx);
                let at = sequence.place.put(tape, at);
                let at = sequence.first.put(tape, at);
                sequence.modify.put(tape, at)
            },
        }
    }

    #[tactic(auto, unfolding(crate::specs::X553::get_sgmii))]
    fn get(tape: &[u32], at: usize) -> Sgmii {
        let kind = word_at(tape, at, 0);
        if kind == 1 {
            Sgmii::Ctrl(KrModify::get(tape, after(tape, at, 1)))
        } else if kind == 2 {
            Sgmii::Force(
                word_at(tape, at, 1),
                KrModify::get(tape, after(tape, at, 2)),
            )
        } else if kind == 3 {
            Sgmii::Lane(
                word_at(tape, at, 1),
                word_at(tape, at, 2),
                KrModify::get(tape, after(tape, at, 3)),
            )
        } else {
            Sgmii::Restart(
                SgmiiSetup {
                    link_ctrl: word_at(tape, at, 1),
                    sgmii: word_at(tape, at, 2),
                    flx: word_at(tape, at, 3),
                },
                Sequence {
                    place: KrPlace::get(tape, after(tape, at, 4)),
                    first: Option::get(tape, after(tape, at, 7)),
                    modify: KrModify::get(tape, after(tape, after(tape, at, 7), 2)),
                },
            )
        }
    }
}

impl Packed for SgmiiAn {
    ghost words = { words_sgmii_an };

    ghost read = { get_sgmii_an };

    #[tactic(auto, unfolding(crate::specs::X553::words_sgmii_an, crate::specs::X553::get_sgmii_an, crate::specs::Tape::word_at))]
    fn put(self, tape: &mut [u32; 68], at: usize) -> usize {
        match self {
            SgmiiAn::Ctrl(kr_modify) => {
                let at = word(tape, at, 1);
                let at = kr_modify.put(tape, at);
                zeros(tape, at, 6)
            },
            SgmiiAn::Force(x, kr_modify) => {
                let at = word(tape, at, 2);
                let at = word(tape, at, x);
                let at = kr_modify.put(tape, at);
                zeros(tape, at, 5)
            },
            SgmiiAn::Again => {
                let at = word(tape, at, 3);
                zeros(tape, at, 8)
            },
            SgmiiAn::Lane(kr_modify) => {
                let at = word(tape, at, 4);
                let at = kr_modify.put(tape, at);
                zeros(tape, at, 6)
            },
            SgmiiAn::Restart(x, sequence) => {
                let at = word(tape, at, 5);
                let at = word(tape, at, x);
                let at = sequence.place.put(tape, at);
                let at = sequence.first.put(tape, at);
                sequence.modify.put(tape, at)
            },
        }
    }

    #[tactic(auto, unfolding(crate::specs::X553::get_sgmii_an))]
    fn get(tape: &[u32], at: usize) -> SgmiiAn {
        let kind = word_at(tape, at, 0);
        if kind == 1 {
            SgmiiAn::Ctrl(KrModify::get(tape, after(tape, at, 1)))
        } else if kind == 2 {
            SgmiiAn::Force(
                word_at(tape, at, 1),
                KrModify::get(tape, after(tape, at, 2)),
            )
        } else if kind == 3 {
            SgmiiAn::Again
        } else if kind == 4 {
            SgmiiAn::Lane(KrModify::get(tape, after(tape, at, 1)))
        } else {
            SgmiiAn::Restart(
                word_at(tape, at, 1),
                Sequence {
                    place: KrPlace::get(tape, after(tape, at, 2)),
                    first: Option::get(tape, after(tape, at, 5)),
                    modify: KrModify::get(tape, after(tape, after(tape, at, 5), 2)),
                },
            )
        }
    }
}

impl Packed for SetupFirmware {
    ghost words = { words_setup_firmware };

    ghost read = { get_setup_firmware };

    #[tactic(auto, using(crate::proofs::Laws::is_flag), unfolding(crate::specs::X553::words_setup_firmware, crate::specs::X553::get_setup_firmware, crate::specs::Tape::word_at))]
    fn put(self, tape: &mut [u32; 68], at: usize) -> usize {
        match self {
            SetupFirmware::Mmngc(firmware_phy, y) => {
                let at = word(tape, at, 1);
                let at = word(tape, at, firmware_phy.id);
                let at = word(tape, at, wide(firmware_phy.speeds));
                let at = flag(tape, at, y);
                zeros(tape, at, 8)
            },
            SetupFirmware::Internal(firmware_phy, sgmii_an) => {
                let at = word(tape, at, 2);
                let at = word(tape, at, firmware_phy.id);
                let at = word(tape, at, wide(firmware_phy.speeds));
                sgmii_an.put(tape, at)
            },
            SetupFirmware::Link(firmware_phy, y, activity) => {
                let at = word(tape, at, 3);
                let at = word(tape, at, firmware_phy.id);
                let at = word(tape, at, wide(firmware_phy.speeds));
                let at = word(tape, at, y);
                let at = activity.put(tape, at);
                zeros(tape, at, 5)
            },
            SetupFirmware::Info(firmware_phy, y, activity) => {
                let at = word(tape, at, 4);
                let at = word(tape, at, firmware_phy.id);
                let at = word(tape, at, wide(firmware_phy.speeds));
                let at = word(tape, at, y);
                let at = activity.put(tape, at);
                zeros(tape, at, 5)
            },
            SetupFirmware::Down(firmware_phy, maybe_word, activity) => {
                let at = word(tape, at, 5);
                let at = word(tape, at, firmware_phy.id);
                let at = word(tape, at, wide(firmware_phy.speeds));
                let at = maybe_word.put(tape, at);
                let at = activity.put(tape, at);
                zeros(tape, at, 4)
            },
        }
    }

    #[tactic(auto, unfolding(crate::specs::X553::get_setup_firmware))]
    fn get(tape: &[u32], at: usize) -> SetupFirmware {
        let kind = word_at(tape, at, 0);
        if kind == 1 {
            SetupFirmware::Mmngc(
                FirmwarePhy {
                    id: word_at(tape, at, 1),
                    speeds: half(word_at(tape, at, 2)),
                },
                is(word_at(tape, at, 3)),
            )
        } else if kind == 2 {
            SetupFirmware::Internal(
                FirmwarePhy {
                    id: word_at(tape, at, 1),
                    speeds: half(word_at(tape, at, 2)),
                },
                SgmiiAn::get(tape, after(tape, at, 3)),
            )
        } else if kind == 3 {
            SetupFirmware::Link(
                FirmwarePhy {
                    id: word_at(tape, at, 1),
                    speeds: half(word_at(tape, at, 2)),
                },
                word_at(tape, at, 3),
                Activity::get(tape, after(tape, at, 4)),
            )
        } else if kind == 4 {
            SetupFirmware::Info(
                FirmwarePhy {
                    id: word_at(tape, at, 1),
                    speeds: half(word_at(tape, at, 2)),
                },
                word_at(tape, at, 3),
                Activity::get(tape, after(tape, at, 4)),
            )
        } else {
            SetupFirmware::Down(
                FirmwarePhy {
                    id: word_at(tape, at, 1),
                    speeds: half(word_at(tape, at, 2)),
                },
                Option::get(tape, after(tape, at, 3)),
                Activity::get(tape, after(tape, at, 5)),
            )
        }
    }
}
